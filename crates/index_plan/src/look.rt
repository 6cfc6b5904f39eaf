use crate::trail::Trail;

/// What an entry says of a search.
#[derive(Debug, Drop)]
pub enum Look {
    /// The key is that of the entry, or stands below it.
    Found(Trail),
    /// The key isn't there: it would stand before this entry.
    Stop,
    /// The key stands behind this entry, if it is there.
    On,
}
