//! Numbers that may not be there.
ghost use Rattle.std.specs.Prelude.{◌≡◌};
ghost use Rattle.volume_shadows.specs.Least.{lesser};

/// The lesser of two.
pub fn lesser(a: Option<u64>, b: Option<u64>) -> Option<u64>
    ensures { result ≡ lesser a b }
{
    match (a, b) {
        (None, _) => b,
        (Some(_), None) => a,
        (Some(x), Some(y)) => Some(x.min(y)),
    }
}
