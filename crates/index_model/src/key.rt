use state_model::{Bytes, FileRef};

/// What an entry before the last stands for: a file, and the file-name value that names it.
#[derive(Debug, Drop)]
pub struct Key {
    pub child: FileRef,
    pub value: Bytes,
}
