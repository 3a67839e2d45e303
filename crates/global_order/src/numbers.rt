//! Lists of numbers by place, where a place that there is not is passed over.

use lists::List;
use std::alloc::{AllocError, Global};

/// The number at a place; 0 where there is none.
pub fn at(numbers: &List<u32>, place: u32) -> u32 {
    match numbers.get(place as usize) {
        Some(number) => *number,
        None => 0,
    }
}

pub fn put(numbers: &mut List<u32>, place: u32, number: u32) {
    if (place as usize) < numbers.len() {
        numbers.set(place as usize, number);
    }
}

/// Adds 1 to the number at a place.
pub fn count(numbers: &mut List<u32>, place: u32) {
    let number = at(numbers, place).saturating_add(1);
    put(numbers, place, number);
}

/// So many zeros.
pub fn zeros(alloc: Global, count: usize) -> Result<List<u32>, AllocError> {
    let mut numbers = List::new(alloc);
    for _ in 0..count {
        numbers.push(0)?;
    }
    Ok(numbers)
}
