//! The makers of a generated script.
ghost use Rattle.std.specs.Prelude.{◌≡◌, ◌<◌, ◌≤◌, ◌%◌, IfOk, length};
ghost use Rattle.workload_gen.specs.Makers.{maker_of, makers, number_after};

use std::alloc::{AllocError, Global};

/// A maker: its node, the node of its friend, and how often it is woken.
#[derive(Clone, Copy, PartialEq, Eq, Debug)]
pub struct Maker {
    pub node: u8,
    pub friend: u8,
    pub wakes: u32,
}

/// The number after a number.
fn number_after(x: u32) -> u32
    requires { x < 65536 }
    ensures value { result ≡ number_after x }
    ensures in_range { result < 65536 }
{
    (1103 * x + 12_345) % 65_536
}

/// The maker j of the number x.
fn maker_of(x: u32, size: u32, j: u32) -> Maker
    requires x { x < 65536 }
    requires size { size ≤ 10000 }
    ensures { result ≡ maker_of x size j }
{
    let node = (x / 16) % 4;
    let friend = (node + 1 + (x / 256) % 3) % 4;
    let more = if j < size % 16 { 1 } else { 0 };
    Maker {
        node: node as u8,
        friend: friend as u8,
        wakes: size / 16 + more,
    }
}

/// The 16 makers, in order.
pub fn makers(alloc: Global, seed: u64, size: u32) -> Result<Vec<Maker>, AllocError>
    requires { size ≤ 10000 }
    ensures made { IfOk result (λ v. v.items ≡ makers (seed % 65536) size) }
    ensures len { IfOk result (λ v. length v.items ≡ 16) }
{
    let mut x = (seed % 65_536) as u32;
    let mut makers = Vec::new(alloc);
    for j in 0..16 {
        x = number_after(x);
        makers.push(maker_of(x, size, j))?;
    }
    Ok(makers)
}
