// The bounds of a file, each once.
#[derive(Drop)]
pub struct Bounds {}

impl Bounds {
    pub const BYTES: u64 = 1 << 30;

    pub const KEYS: u64 = 1 << 24;

    pub const EDGES: u64 = 1 << 26;

    pub const SECTIONS: u64 = 64;

    // Bytes of a name.
    pub const NAME: u8 = 63;

    // Keys that need no fences.
    pub const UNFENCED: u64 = 65536;

    // Keys to which the writer gives no start index.
    pub const UNINDEXED: u64 = 1024;
}
