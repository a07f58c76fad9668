// The lists that the lines of a text set.
ghost use Rattle.case_text.specs.declared.lists.ListError.TheVariants.{Malformed, Memory};
ghost use Rattle.std.specs.Prelude.{◌≡◌, ◌≤◌, [], alloc_error, length, take, replicate, IfErr, OnErr};

use crate::items::{self, Item};
use crate::numbers::Number;
use std::alloc::{AllocError, AllocFailed};

/// Why a line sets no list.
#[derive(Debug, Drop)]
pub enum ListError {
    /// The line says no list that the program takes.
    Malformed,
    /// There is no memory for its numbers. The lists of this crate ask for none, but a program's own may.
    Memory(AllocError),
}

impl From<AllocError> for ListError {
    ghost from_gives = { λ error made. made ≡ Memory error };

    fn from(error: AllocError) -> ListError {
        ListError::Memory(error)
    }
}

impl<T: Drop> From<AllocFailed<T>> for ListError {
    ghost from_gives = { λ _ made. made ≡ Memory alloc_error };

    fn from(error: AllocFailed<T>) -> ListError {
        ListError::Memory(AllocError::from(error))
    }
}

/// Places that are filled from the front with the numbers that a line says.
#[derive(Drop)]
struct Filling<'a, T, const MOST: usize> {
    places: &'a mut [T],
    size: usize,
    ghost has_places: { length places.now ≡ MOST },
    ghost has_room: { size ≤ MOST },
}

impl<T: Number, const MOST: usize> Filling<'_, T, MOST> {
    /// Adds the numbers that the items of a text say, unless the text is malformed.
    fn add_items(&mut self, text: &[u8]) -> Option<()> {
        let mut rest = text;
        while let Some((first, others)) = rest.split_first() {
            if *first == b' ' {
                rest = others;
                continue;
            }
            let (item, behind) = items::first_item(rest)?;
            self.add_item(item)?;
            rest = behind;
        }
        Some(())
    }

    /// Adds the numbers of an item's group as often as is said. A group that is one number is read once for all turns.
    fn add_item(&mut self, item: Item<'_>) -> Option<()> {
        if let Some(number) = items::only_number(item.group) {
            return self.add_times(item.times, number);
        }
        for turn in 0..item.times {
            self.add_turn(item.group, turn)?;
        }
        Some(())
    }

    /// Adds the numbers of a group as they are in one turn.
    fn add_turn(&mut self, group: &[u8], turn: u32) -> Option<()> {
        let mut rest = group;
        while let Some((first, others)) = rest.split_first() {
            if *first == b' ' {
                rest = others;
                continue;
            }
            let (number, behind) = items::first_number(rest, turn)?;
            self.add(number)?;
            rest = behind;
        }
        Some(())
    }

    /// Adds a number as often as is said.
    fn add_times(&mut self, times: u32, number: u32) -> Option<()> {
        for _ in 0..times {
            self.add(number)?;
        }
        Some(())
    }

    /// Adds a number, unless its type does not have it or no place is left.
    fn add(&mut self, number: u32) -> Option<()> {
        let size = self.size;
        if size >= MOST {
            return None;
        }
        self.places[size] = T::from_u32(number)?;
        self.size = size + 1;
        Some(())
    }
}

/// Fills places from the front with the numbers that the items of a line say, and answers whether the line is well formed
/// and has room, and how many places it filled. Not inlined: as part of `set` lines of groups took up to 1.2 times as long.
#[inline(never)]
fn fill<T: Number, const MOST: usize>(places: &mut [T], items: &[u8]) -> (Option<()>, usize)
    requires { length places.old ≡ MOST }
    ensures places { length places.new ≡ MOST }
    ensures room { result.1 ≤ MOST }
{
    let mut filling: Filling<T, MOST> = Filling { places, size: 0 };
    let filled = filling.add_items(items);
    (filled, filling.size)
}

/// A list that stands until a line sets it anew: before the first line, and after a malformed one, it is empty. Its numbers
/// stand at the front of an array of its room, so that no line asks for memory.
#[derive(Drop)]
pub struct List<T, const MOST: usize> {
    numbers: [T; MOST],
    size: usize,
    ghost has_places: { length numbers ≡ MOST },
    ghost has_room: { size ≤ MOST },
}

impl<T: Number, const MOST: usize> List<T, MOST> {
    /// A list that no line has set.
    pub fn new() -> Self
        ensures { take result.size result.numbers ≡ [] }
    {
        let zero = T::from_u32(0).unwrap();
        List {
            numbers: [zero; MOST],
            size: 0,
        }
    }

    /// The numbers of the list.
    pub fn as_slice(&self) -> &[T]
        ensures { result.now ≡ take self.now.size self.now.numbers }
    {
        &self.numbers[..self.size]
    }

    /// Copies the numbers to the front of other places, and gives those that they stand in then.
    pub fn copied_to<'a>(&self, places: &'a mut [T]) -> &'a mut [T]
        requires { MOST ≤ length places.old }
        ensures { result.now ≡ take self.now.size self.now.numbers }
    {
        let copy = &mut places[..self.size];
        copy.copy_from_slice(self.as_slice());
        copy
    }

    /// Sets the list to the numbers that the items of a line say.
    pub fn set(&mut self, items: &[u8]) -> Result<(), ListError>
        ensures empty { OnErr result (take self.new.size self.new.numbers ≡ []) }
        ensures malformed { IfErr result (λ error. error ≡ Malformed) }
    {
        let (filled, size) = fill::<T, MOST>(&mut self.numbers, items);
        self.size = size;
        if filled.is_none() {
            self.size = 0;
        }
        filled.ok_or(ListError::Malformed)
    }
}

/// Sets an array to the numbers that the items of a line say, which must be as many as it has places, or else to zeros.
pub fn set_array<const N: usize>(array: &mut [u32; N], items: &[u8]) -> Result<(), ListError>
    ensures zeros { OnErr result (array.new ≡ replicate N 0) }
    ensures malformed { IfErr result (λ error. error ≡ Malformed) }
{
    let (filled, size) = fill::<u32, N>(array, items);
    if filled.is_some() && size == N {
        return Ok(());
    }
    array.fill(0);
    Err(ListError::Malformed)
}

#[cfg(test)]
mod tests {
    use super::*;
    use std::test::Fail;

    #[test]
    fn sets_what_a_line_says(rt: HostRuntime) -> Result<(), Fail> {
        let mut list: List<u32, 8> = List::new();
        assert!(rt; list.set(b" 05 2*7  2*(3 4+) 9+").is_ok());
        assert_eq!(rt; list.as_slice(), [5, 7, 7, 3, 4, 3, 5, 9].as_slice());
        assert!(rt; list.set(b" 4294967295+ 0*(6 x) 7*0").is_ok());
        assert_eq!(rt;
            list.as_slice(),
            [4294967295, 0, 0, 0, 0, 0, 0, 0].as_slice()
        );
        assert!(rt; matches!(list.set(b" 9*1"), Err(ListError::Malformed)));
        assert!(rt; list.as_slice().is_empty());
        Ok(())
    }

    #[test]
    fn sets_bytes_and_arrays(rt: HostRuntime) -> Result<(), Fail> {
        let mut strip: List<u8, 2> = List::new();
        assert!(rt; strip.set(b" 255 0").is_ok());
        assert_eq!(rt; strip.as_slice(), [255, 0].as_slice());
        assert!(rt; matches!(strip.set(b" 256"), Err(ListError::Malformed)));
        let mut array = [7; 3];
        assert!(rt; set_array(&mut array, b" 3*(1+)").is_ok());
        assert_eq!(rt; array, [1, 2, 3]);
        assert!(rt; matches!(set_array(&mut array, b" 1 2"), Err(ListError::Malformed)));
        assert_eq!(rt; array, [0, 0, 0]);
        Ok(())
    }

    /// A number below 10, of a type that has no default.
    #[derive(Clone, Copy, Debug, PartialEq, Eq)]
    struct Digit(u8);

    impl Number for Digit {
        ghost value = { λ digit. digit.0 };

        ghost largest = { 9 };

        fn from_u32(number: u32) -> Option<Digit> {
            if number > 9 {
                return None;
            }
            Some(Digit(number as u8))
        }
    }

    #[test]
    fn takes_numbers_with_no_default(rt: HostRuntime) -> Result<(), Fail> {
        let mut list: List<Digit, 3> = List::new();
        assert!(rt; list.set(b" 2*(8+)").is_ok());
        assert_eq!(rt; list.as_slice(), [Digit(8), Digit(9)].as_slice());
        assert!(rt; list.set(b" 2*(9+)").is_err());
        assert!(rt; list.as_slice().is_empty());
        Ok(())
    }

    #[test]
    fn tells_that_memory_fails(rt: HostRuntime) -> Result<(), Fail> {
        assert!(rt; matches!(ListError::from(AllocError), ListError::Memory(_)));
        let unpushed = AllocFailed { value: 7u8 };
        assert!(rt; matches!(ListError::from(unpushed), ListError::Memory(_)));
        Ok(())
    }
}
