ghost use Rattle.std.specs.Prelude.{◌≡◌, ◌-◌, ◌*◌, ◌<◌, ◌≤◌, length};
ghost use Rattle.disk_model.specs.Fixups.{sector_count};
ghost use Rattle.log_page.specs.CheckWords.{is_last_word, IsCheckWord};

use disk_model::u16_at;

// Whether the word ends some sector.
fn is_last_word(page: &[u8], word: u16) -> bool
    ensures value { result ≡ is_last_word page.now word }
{
    for sector in 0..page.len() / 512 {
        if u16_at(page, 512 * sector + 510) == word {
            return true;
        }
    }
    false
}

/// The check word by which a page of the log is protected (Linux-NTFS documentation, "Fixup"),
/// where `page` is what stood at its place before its first write: the least word that is neither 0
/// nor 0xFFFF and ends none of the eight sectors. So a page that holds an old sector
/// shows.
///
/// It takes time in proportion to the square of the sectors.
pub fn pick_check(page: &[u8]) -> u16
    requires { length page.now ≡ 4096 }
    ensures value { IsCheckWord page.now result }
{
    let mut word = 1;
    while is_last_word(page, word) {
        word += 1;
    }
    word
}
