//! Numbers at places, read and written where there is such a place.
ghost use Rattle.std.specs.Prelude.{◌≡◌, length};

/// The number at a place, or `other` where there is no such place.
#[inline(always)]
pub fn number_at(table: &[u32], place: u32, other: u32) -> u32 {
    match table.get(place as usize) {
        Some(number) => *number,
        None => other,
    }
}

/// Writes a number at a place, where there is such a place.
#[inline(always)]
pub fn set_number(table: &mut [u32], place: u32, number: u32)
    ensures { length table.new ≡ length table.old }
{
    if (place as usize) < table.len() {
        table[place as usize] = number;
    }
}

/// Adds to the number at a place, where there is such a place. The sum stands still at the type's end.
#[inline(always)]
pub fn add_number(table: &mut [u32], place: u32, more: u32)
    ensures { length table.new ≡ length table.old }
{
    if (place as usize) < table.len() {
        table[place as usize] = table[place as usize].saturating_add(more);
    }
}

/// The part of a list from one place up to another; nothing where there is no such part.
#[inline(always)]
pub fn part<T>(list: &[T], start: u32, end: u32) -> &[T] {
    let (start, end) = (start as usize, end as usize);
    if start <= end && end <= list.len() {
        return &list[start..end];
    }
    &[]
}

/// How many there are, at most u32::MAX.
pub fn count_of<T>(list: &[T]) -> u32 {
    u32::try_from(list.len()).unwrap_or(u32::MAX)
}
