// Numbers in bytes, without any knowledge of a file: little-endian numbers of 2 to 8 bytes, ids of 16 bytes that compare
// as one big-endian number, and varints.
// A read or a write asks that its bytes lie within the slice, and each caller proves it; `varint_at` asks nothing, since
// where a varint ends is known only by reading it.
#![tactic(auto)]

pub mod ids;
pub mod little;
pub mod varint;
