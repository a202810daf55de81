//! Roads, and the numbers by which queues hold them.

/// A length that no way has, and at which sums stand still.
pub const FAR: u32 = u32::MAX;

/// A road to a node, with its length.
#[derive(Clone, Copy, Debug)]
pub struct Road {
    pub to: u32,
    pub length: u32,
}

/// How far a node is from another one, with the node: a number by which a queue puts the nearest first, and of two at one
/// distance the one with the lower number.
pub fn key_of(length: u32, node: u32) -> u64 {
    u64::from(length) << 32 | u64::from(node)
}

/// The length of a key.
pub fn length_of(key: u64) -> u32 {
    u32::try_from(key >> 32).unwrap_or(FAR)
}

/// The node of a key.
pub fn node_of(key: u64) -> u32 {
    u32::try_from(key % 4_294_967_296).unwrap_or(0)
}
