//! Numbers in memory, the low byte first.
ghost use Rattle.std.specs.Prelude.{◌≡◌, ℕ, ◌+◌, ◌*◌, ◌/◌, ◌%◌, ◌^◌, ◌<◌, ◌≤◌, length};
ghost use Rattle.run_rules.specs.Memory.{stored, from_bytes};

/// Puts the bytes of a number there.
#[tactic(auto, using(crate::proofs::Spelling::spelling))]
pub fn put_at(memory: &mut [u8], at: usize, count: usize, n: u64)
    requires { at + count ≤ length memory.old }
    ensures { memory.new ≡ stored count at n memory.old }
{
    let mut rest = n;
    for i in 0..count {
        memory[at + i] = (rest % 256) as u8;
        rest /= 256;
    }
}

/// The number that 1 bytes spell.
#[tactic(auto, using(crate::proofs::Spelling::spells_1))]
pub fn number_1(bytes: &[u8]) -> u64
    requires { length bytes.now ≡ 1 }
    ensures value { result ≡ from_bytes bytes.now }
    ensures fits { result < 2 ^ 8 }
{
    bytes[0] as u64
}

/// The number that 2 bytes spell.
#[tactic(auto, using(crate::proofs::Spelling::spells_2))]
pub fn number_2(bytes: &[u8]) -> u64
    requires { length bytes.now ≡ 2 }
    ensures value { result ≡ from_bytes bytes.now }
    ensures fits { result < 2 ^ 16 }
{
    bytes[0] as u64 + 256 * bytes[1] as u64
}

/// The number that 4 bytes spell.
#[tactic(auto, using(crate::proofs::Spelling::spells_4))]
pub fn number_4(bytes: &[u8]) -> u64
    requires { length bytes.now ≡ 4 }
    ensures value { result ≡ from_bytes bytes.now }
    ensures fits { result < 2 ^ 32 }
{
    bytes[0] as u64 + 256 * (bytes[1] as u64 + 256 * (bytes[2] as u64 + 256 * bytes[3] as u64))
}

/// The number that 8 bytes spell.
#[tactic(auto, using(crate::proofs::Spelling::spells_8))]
pub fn number_8(bytes: &[u8]) -> u64
    requires { length bytes.now ≡ 8 }
    ensures value { result ≡ from_bytes bytes.now }
    ensures fits { result < 2 ^ 64 }
{
    bytes[0] as u64
        + 256
            * (bytes[1] as u64
                + 256
                    * (bytes[2] as u64
                        + 256
                            * (bytes[3] as u64
                                + 256
                                    * (bytes[4] as u64
                                        + 256
                                            * (bytes[5] as u64
                                                + 256
                                                    * (bytes[6] as u64 + 256 * bytes[7] as u64))))))
}
