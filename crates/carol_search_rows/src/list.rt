//! Access to lists by numbers that are tested.

use crate::stop::Stop;

/// The item with the number. `GivenUp` comes where there is none.
pub fn at<T: Copy>(list: &[T], index: usize) -> Result<T, Stop> {
    if index < list.len() {
        Ok(list[index])
    } else {
        Err(Stop::GivenUp)
    }
}

/// The item with the number, lent.
pub fn get<T>(list: &[T], index: usize) -> Result<&T, Stop> {
    if index < list.len() {
        Ok(&list[index])
    } else {
        Err(Stop::GivenUp)
    }
}

/// The item with the number, to be changed.
pub fn get_mut<T>(list: &mut [T], index: usize) -> Result<&mut T, Stop> {
    if index < list.len() {
        Ok(&mut list[index])
    } else {
        Err(Stop::GivenUp)
    }
}

/// Puts an item in place of the one with the number.
pub fn put<T: Copy>(list: &mut [T], index: usize, item: T) -> Result<(), Stop> {
    if index < list.len() {
        list[index] = item;
        Ok(())
    } else {
        Err(Stop::GivenUp)
    }
}

/// Appends an item.
pub fn add<T: Drop>(list: &mut Vec<T>, item: T) -> Result<(), Stop> {
    match list.push(item) {
        Ok(()) => Ok(()),
        Err(_) => Err(Stop::NoMemory),
    }
}

/// Puts a level into an ascending list without repeats.
pub fn cite(levels: &mut Vec<usize>, level: usize) -> Result<(), Stop> {
    let mut place = levels.len();
    for (i, other) in levels.iter().enumerate() {
        if *other == level {
            return Ok(());
        }
        if *other > level {
            place = i;
            break;
        }
    }
    if place <= levels.len() {
        match levels.insert(place, level) {
            Ok(()) => {}
            Err(_) => return Err(Stop::NoMemory),
        }
    }
    Ok(())
}

/// Puts each level of one list into another.
pub fn cite_all(levels: &mut Vec<usize>, others: &[usize]) -> Result<(), Stop> {
    for other in others {
        cite(levels, *other)?;
    }
    Ok(())
}
