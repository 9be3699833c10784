//! Texts that are put together.

use std::alloc::{AllocError, Global};

/// A text with one part in place of another.
pub fn changed(alloc: Global, whole: &str, old: &str, new: &[u8]) -> Result<Vec<u8>, AllocError> {
    let mut text = Vec::new(alloc);
    if let Some((front, back)) = whole.split_once(old) {
        text.extend_from_slice(front.as_bytes())?;
        text.extend_from_slice(new)?;
        text.extend_from_slice(back.as_bytes())?;
    }
    Ok(text)
}
