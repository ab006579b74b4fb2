//! What a table holds, as items of Rust.
use crate::layout::list;
use std::alloc::{AllocError, Global};
use std::fmt;

/// Numbers.
pub(crate) fn numbers<T: fmt::Display>(
    alloc: Global,
    numbers: &[T],
) -> Result<Vec<String>, AllocError> {
    let mut items = Vec::new(alloc);
    for number in numbers {
        push(&mut items, number.to_string(alloc)?)?;
    }
    Ok(items)
}

/// Arrays of numbers.
pub(crate) fn arrays<const N: usize>(
    alloc: Global,
    arrays: &[[u16; N]],
) -> Result<Vec<String>, AllocError> {
    let mut items = Vec::new(alloc);
    for array in arrays {
        let numbers = list(alloc, &numbers(alloc, array)?, 4)?;
        push(&mut items, format!(in alloc; "[{numbers}]")?)?;
    }
    Ok(items)
}

/// A text, cut at these bytes.
pub(crate) fn pieces(alloc: Global, text: &str, ends: &[usize]) -> Result<Vec<String>, AllocError> {
    let mut items = Vec::new(alloc);
    let mut start = 0usize;
    for end in ends {
        match text.get(start..*end) {
            Some(piece) if piece != "" => {
                push(&mut items, format!(in alloc; "{piece:?}")?)?;
                start = *end;
            }
            _ => {}
        }
    }
    match text.get(start..) {
        Some(rest) if rest != "" || start == 0 => push(&mut items, format!(in alloc; "{rest:?}")?)?,
        _ => {}
    }
    Ok(items)
}

fn push(items: &mut Vec<String>, item: String) -> Result<(), AllocError> {
    match items.push(item) {
        Ok(()) => Ok(()),
        Err(_refused) => Err(AllocError),
    }
}
