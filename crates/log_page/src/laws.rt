//! The laws of the log's pages.
ghost use Rattle.log_page.specs.PlaceLaws.{HasDigits, LsnSaysPlace};
ghost use Rattle.log_page.specs.RestartLaws.{RestartReadAgain};
ghost use Rattle.log_page.specs.PageLaws.{WrittenPages};
ghost use Rattle.log_page.specs.PageSpellings.{PageReadAgain};

/// Law: a number has as many binary digits as its highest power of 2 says.
pub fn has_digits()
    ensures { HasDigits }
{}

/// Law: an LSN says the lap and the place in the log of which it was made.
pub fn lsn_says_place()
    ensures { LsnSaysPlace }
{}

/// Law: a restart page that is written is read as the same fields, by whatever check word its
/// update sequence is made.
pub fn restart_read_again()
    ensures { RestartReadAgain }
{}

/// Law: of a page that was written over another one by a picked check word, either no sector is
/// old, or none is new, or its update sequence doesn't hold; so a record page that holds an old
/// sector isn't whole at its new LSN. A page is whole at one LSN at most.
pub fn written_pages()
    ensures { WrittenPages }
{}

/// Law: a record page that is spelled by its entries is whole at its LSN and gives these entries,
/// by whatever check word its update sequence is made.
pub fn page_read_again()
    ensures { PageReadAgain }
{}
