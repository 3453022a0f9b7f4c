// What a summary says.
use codes::ids::Id;

// The smallest and largest key and log number.
#[derive(Clone, Copy, Debug, PartialEq, Eq)]
pub struct Extremes {
    pub smallestkey: Id,
    pub largestkey: Id,
    pub smallestlog: u64,
    pub largestlog: u64,
}

// What a file's edges come to. Dead edges count as live ones do, and are counted besides.
#[derive(Drop)]
pub struct Summary {
    pub keycount: u64,
    pub edgecount: u64,
    pub tombstones: u64,
    pub largestdegree: u64,
    pub extremes: Option<Extremes>,
    // bucket i counts the keys of degree 2^i up to, but not including, 2^(i + 1)
    pub buckets: [u64; 64],
}
