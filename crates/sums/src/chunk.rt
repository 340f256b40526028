// The values of a chunk narrower than 64 bits cannot overflow 64 bits: 2^16 * (2^32 - 1) < 2^64.
pub const SUM_CHUNK: usize = 65536;
