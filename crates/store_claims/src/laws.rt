ghost use Rattle.store_claims.specs.Laws.{ClaimsAgree, ClaimsMove, ClaimedStays, ClaimedRecovers};
ghost use Rattle.store_claims.specs.ClaimVector.{ClaimVector};

/// Law: the claims, list by list and place by place.
pub fn claims_agree()
    ensures { ClaimsAgree }
{}

/// Law: what each event of a store does to its claims.
pub fn claims_move()
    ensures { ClaimsMove }
{}

/// Law: no event makes a claimed block what a read gives; so it stays in each content that is left.
pub fn claimed_stays()
    ensures { ClaimedStays }
{}

/// Law: each image that a crash may leave recovers to a content of the window on all blocks that
/// are claimed there.
pub fn claimed_recovers()
    ensures { ClaimedRecovers }
{}

/// Law: small lists claim what they should.
pub fn claim_vector()
    ensures { ClaimVector }
{}
