//! The operands of a body, kept short.
ghost use Rattle.std.specs.Prelude.{◌≡◌, ◌<◌, ◌^◌, ◌++◌, ◌∷◌, [], true, false, replicate, OnOk, OnErr, IfOk};
ghost use Rattle.body_windows.specs.Operands.{operand_of, operands_seen};
ghost use Rattle.body_windows.specs.declared.operand.Operand.TheVariants.{Number};

use crate::operand::Operand;
use std::alloc::Global;
use std::marker::Model;
use wl_base::{OutOfMemory, Seq};
use wl_lists::shrunk;

/// What an operand is.
#[derive(Clone, Copy, Debug, PartialEq, Eq)]
enum Shape {
    Number,
    Symbol,
    TypeRef,
    TableZero,
}

/// An operand among others, kept short. Fields that it doesn't have are 0.
#[derive(Clone, Copy, Debug, PartialEq, Eq)]
pub struct Reference {
    shape: Shape,
    kind: u8,
    numbers: u16,
    place: u32,
    index: u32,
    addend: i32,
}

// A link keeps one for each reference of its objects.
const _: () = prove!(size_of::<Reference>() == 16);

impl Reference {
    /// The operand, with so many numbers before it.
    #[inline(always)]
    fn of(numbers: u16, operand: Operand) -> Self
        ensures numbers { result.numbers ≡ numbers }
        ensures operand { operand_of result ≡ operand }
    {
        let none = Reference {
            shape: Shape::Number,
            kind: 0,
            numbers,
            place: 0,
            index: 0,
            addend: 0,
        };
        match operand {
            Operand::Number => none,
            Operand::Symbol {
                kind,
                place,
                symbol,
                addend,
            } => Reference {
                shape: Shape::Symbol,
                kind,
                numbers,
                place,
                index: symbol,
                addend,
            },
            Operand::TypeRef { place, index } => Reference {
                shape: Shape::TypeRef,
                place,
                index,
                ..none
            },
            Operand::TableZero => Reference {
                shape: Shape::TableZero,
                ..none
            },
        }
    }

    /// How many numbers stand before it, back to the reference before it.
    pub fn numbers(&self) -> u16
        ensures { result ≡ self.now.numbers }
    {
        self.numbers
    }

    /// The operand.
    pub fn operand(&self) -> Operand
        ensures { result ≡ operand_of self.now }
    {
        match self.shape {
            Shape::Number => Operand::Number,
            Shape::Symbol => Operand::Symbol {
                kind: self.kind,
                place: self.place,
                symbol: self.index,
                addend: self.addend,
            },
            Shape::TypeRef => Operand::TypeRef {
                place: self.place,
                index: self.index,
            },
            Shape::TableZero => Operand::TableZero,
        }
    }
}

/// A list of operands, which contracts see as that list. Numbers are counted and not kept, but for one
/// in 2^16: most operands are numbers.
#[derive(Debug, Drop)]
pub struct Operands {
    /// The operands that are kept, in order.
    references: Vec<Reference>,
    /// How many numbers stand behind the last of them.
    behind: u16,
}

impl Model for Operands {
    ghost use Rattle.std.specs.Prelude.{List};
    ghost use Rattle.body_windows.specs.declared.operand.Operand.{Operand};
    ghost use Rattle.body_windows.specs.Operands.{spread};

    ghost Value = { List Operand };

    ghost view = { λ o. spread o.references.items o.behind };
}

/// A list of operands, lent.
#[derive(Clone, Copy, Debug)]
pub struct OperandsRef<'a> {
    /// The operands that are kept, in order: those that are more than numbers, and a number where 2^16
    /// stand in a row.
    pub references: &'a [Reference],
    /// How many numbers stand behind the last of them.
    pub behind: u16,
}

impl Operands {
    /// The empty list. It takes no memory.
    pub fn new(alloc: Global) -> Self
        ensures { result ≡ [] }
    {
        Operands {
            references: Vec::new(alloc),
            behind: 0,
        }
    }

    /// The list, lent.
    pub fn as_ref(&self) -> OperandsRef<'_>
        ensures { operands_seen result ≡ self.now }
    {
        OperandsRef {
            references: self.references.as_slice(),
            behind: self.behind,
        }
    }

    /// One number more.
    #[inline(always)]
    fn push_number(&mut self) -> Result<(), OutOfMemory>
        ensures ok { OnOk result (self.new ≡ self.old ++ Number ∷ []) }
        ensures err { OnErr result (self.new ≡ self.old) }
    {
        match self.behind.checked_add(1) {
            Some(behind) => {
                self.behind = behind;
                Ok(())
            }
            None => self.push_reference(Operand::Number),
        }
    }

    /// So many numbers more.
    #[inline(always)]
    pub fn push_numbers(&mut self, count: usize) -> Result<(), OutOfMemory>
        requires { count < 2 ^ 32 }
        ensures { OnOk result (self.new ≡ self.old ++ replicate count Number) }
    {
        let behind = usize::from(self.behind) + count;
        if behind <= 0xffff {
            self.behind = behind as u16;
            return Ok(());
        }
        self.push_many(count)
    }

    /// The same, one by one.
    #[inline(never)]
    fn push_many(&mut self, count: usize) -> Result<(), OutOfMemory>
        ensures { OnOk result (self.new ≡ self.old ++ replicate count Number) }
    {
        for _ in 0..count {
            self.push_number()?;
        }
        Ok(())
    }

    /// Room for so many operands more that are kept.
    pub fn reserve(&mut self, count: usize) -> Result<(), OutOfMemory>
        ensures { OnOk result (self.new ≡ self.old) }
    {
        self.references.reserve_exact(count)?;
        Ok(())
    }

    /// So many numbers more, and then an operand, which is kept, where there is room for it: whether
    /// there is. Where there is none, nothing changes.
    #[inline(always)]
    pub fn push_behind(&mut self, numbers: usize, operand: Operand) -> bool
        requires { numbers < 2 ^ 32 }
        ensures pushed { result ≡ true → self.new ≡ (self.old ++ replicate numbers Number) ++ operand ∷ [] }
        ensures left { result ≡ false → self.new ≡ self.old }
    {
        let behind = usize::from(self.behind) + numbers;
        if behind > 0xffff || self.references.len() >= self.references.capacity() {
            return false;
        }
        self.references
            .push_reserved(Reference::of(behind as u16, operand));
        self.behind = 0;
        true
    }

    /// One operand more, which is kept.
    #[inline(never)]
    fn push_reference(&mut self, operand: Operand) -> Result<(), OutOfMemory>
        ensures ok { OnOk result (self.new ≡ self.old ++ operand ∷ []) }
        ensures err { OnErr result (self.new ≡ self.old) }
    {
        self.references.push(Reference::of(self.behind, operand))?;
        self.behind = 0;
        Ok(())
    }

    /// Puts an operand at the end. Where memory is refused the list is as before. A number takes
    /// memory only where 2^16 of them stand in a row.
    #[inline(always)]
    pub fn push(&mut self, operand: Operand) -> Result<(), OutOfMemory>
        ensures ok { OnOk result (self.new ≡ self.old ++ operand ∷ []) }
        ensures err { OnErr result (self.new ≡ self.old) }
    {
        if operand.is_reference() {
            self.push_reference(operand)
        } else {
            self.push_number()
        }
    }

    /// The same list in no more memory than it needs.
    pub fn shrunk(self) -> Self
        ensures { result ≡ self }
    {
        Operands {
            references: shrunk(Seq::from_vec(self.references)).into_vec(),
            behind: self.behind,
        }
    }
}

impl OperandsRef<'_> {
    /// The whole list.
    pub fn to_list(self, alloc: Global) -> Result<Seq<Operand>, OutOfMemory>
        ensures { IfOk result (λ list. list ≡ operands_seen self.entry) }
    {
        let mut list = Seq::new(alloc);
        for reference in self.references {
            put_numbers(&mut list, reference.numbers())?;
            list.push(reference.operand())?;
        }
        put_numbers(&mut list, self.behind)?;
        Ok(list)
    }
}

/// Puts so many numbers at the end.
fn put_numbers(list: &mut Seq<Operand>, count: u16) -> Result<(), OutOfMemory>
    ensures { OnOk result (list.new ≡ list.old ++ replicate count Number) }
{
    for _ in 0..count {
        list.push(Operand::Number)?;
    }
    Ok(())
}
