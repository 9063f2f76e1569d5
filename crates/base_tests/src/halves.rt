//! Both ways to divide work, each through its bound at a type of the tests.
use std::marker::Model;
use std::test::Fail;
use wl_fan::{Share, Slices, Workers, each_half, each_slice};

// A share of up to 64 numbers, which flips the bit of a number when that is worked.
#[derive(Drop)]
struct Bits {
    first: u32,
    width: u32,
    done: bool,
    flipped: u64,
}

impl Model for Bits {
    ghost use Rattle.std.specs.Prelude.{ℕ, ◌+◌, ◌≤◌, Bool};

    ghost Value = { ℕ × ℕ × Bool };

    ghost view = { λ s. (s.first, s.width, s.done) };

    ghost invariant = { λ s. s.first + s.width ≤ 64 };
}

impl Share for Bits {
    ghost start = { λ s. s.0 };

    ghost breadth = { λ s. s.1 };

    ghost is_done = { λ s. s.2 };

    ghost belongs = { λ s t. Unit {0} };

    fn split(&mut self, width: u32) -> Self {
        self.width -= width;
        Bits {
            first: self.first + self.width,
            width,
            done: false,
            flipped: 0,
        }
    }

    fn take_back(&mut self, part: Self) {
        self.width += part.width;
        self.flipped ^= part.flipped;
    }

    fn work(&mut self, worker: u32) {
        self.flipped ^= 1u64.wrapping_shl(worker);
        self.done = true;
    }

    ghost belongs_self = { λ x. tt };

    ghost belongs_back = { λ x y e. tt };

    ghost belongs_on = { λ x y z e f. tt };
}

// Parts of three items, each of which gets the part's number as its last digit.
struct Threes;

impl Slices<u32> for Threes {
    ghost use Rattle.std.specs.Prelude.{◌*◌};
    ghost use Rattle.std.proofs.Math.Nat.{mul-le-mul_left};

    ghost begins = { λ s p. 3 * p };

    ghost worked = { λ s p old new. Unit {0} };

    fn cut(&self, part: u32) -> usize {
        3 * part as usize
    }

    fn work(&self, part: u32, items: &mut [u32]) {
        for item in items.iter_mut() {
            *item = item.wrapping_mul(100).wrapping_add(part);
        }
    }

    ghost rises = { λ s p q le below. mul-le-mul_left 3 le };
}

#[test]
fn workers_are_one_to_sixty_four(rt: HostRuntime) -> Result<(), Fail> {
    assert!(rt; Workers::new(0).is_none());
    assert!(rt; Workers::new(65).is_none());
    assert_eq!(rt; Workers::new(1).ok_or("1")?.count(), 1);
    assert_eq!(rt; Workers::new(64).ok_or("64")?.count(), 64);
    Ok(())
}

#[test]
fn each_number_is_worked_once(rt: HostRuntime) -> Result<(), Fail> {
    for (first, width, flipped) in [
        (0u32, 1u32, 1u64),
        (0, 2, 3),
        (5, 3, 7 << 5),
        (0, 64, u64::MAX),
    ] {
        let mut share = Bits {
            first,
            width,
            done: false,
            flipped: 0,
        };
        each_half(&rt, &mut share, first, width);
        assert_eq!(rt; share.flipped, flipped);
    }
    Ok(())
}

#[test]
fn each_part_is_worked_once(rt: HostRuntime) -> Result<(), Fail> {
    let mut items = [1u32; 192];
    each_slice(&rt, &Threes, &mut items, 0, 64);
    each_slice(&rt, &Threes, &mut items[6..15], 2, 3);
    for (place, item) in items.iter().enumerate() {
        let part = place as u32 / 3;
        let want = if 2 <= part && part < 5 {
            (100 + part) * 100 + part
        } else {
            100 + part
        };
        assert_eq!(rt; *item, want);
    }
    Ok(())
}
