//! The words of a command line, as the system gives them.
ghost use Rattle.std.specs.Prelude.{◌≡◌, ◌≢◌, [], Ok, Err, IfOk, IfErr, IsOkAnd};
ghost use Rattle.std.specs.IoError.{error_kind};
ghost use Rattle.std.specs.declared.io.ErrorKind.TheVariants.{OutOfMemory};

use crate::status::MEMORY;
use std::alloc::Global;
use std::io;

/// The words of a command line, by what the system gives for them: none, where one of them is no
/// text, since then they are no line of a command.
///
/// The error is the status where memory was wanting for them.
pub fn words_or_status(alloc: Global, texts: io::Result<Vec<String>>) -> Result<Vec<String>, u8>
    ensures given { IfOk texts (λ words. result ≡ Ok words) }
    ensures wanting { IfErr texts (λ error. error_kind error ≡ OutOfMemory → result ≡ Err 6) }
    ensures no_text { IfErr texts (λ error. error_kind error ≢ OutOfMemory → IsOkAnd result (λ words. words.items ≡ [])) }
{
    match texts {
        Ok(words) => Ok(words),
        Err(error) => none_or_status(alloc, error.kind()),
    }
}

// No words, or the status, where memory was wanting.
fn none_or_status(alloc: Global, kind: io::ErrorKind) -> Result<Vec<String>, u8>
    ensures wanting { kind ≡ OutOfMemory → result ≡ Err 6 }
    ensures no_text { kind ≢ OutOfMemory → IsOkAnd result (λ words. words.items ≡ []) }
{
    match kind {
        io::ErrorKind::OutOfMemory => Err(MEMORY),
        _ => Ok(Vec::new(alloc)),
    }
}
