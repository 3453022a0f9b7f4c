// One group of a file, from the edges i up to j of a batch: its end and split cost, whether it is dense, its size, its bytes.
#![tactic(auto)]

ghost use Rattle.std.specs.Prelude.{◌≡◌, ◌+◌, ◌*◌, ◌≤◌, ◌<◌, [], ◌∷◌, ◌++◌, length, drop};
ghost use Rattle.batch.specs.Batch.{partners_in, edges_of};
ghost use Rattle.base.specs.Over.{part};
ghost use Rattle.base.specs.Put.{Put};
ghost use Rattle.codes.specs.Little.{le_bytes};
ghost use Rattle.codes.specs.Varint.{var_bytes};
ghost use Rattle.frame.specs.Kind.{most_edges};
ghost use Rattle.group.specs.Group.{bytes_of};
ghost use Rattle.group.specs.Written.{split_from, written_as};
ghost use Rattle.batch_groups.specs.Groups.{groups_of, GroupEnd, Grouped};
ghost use Rattle.write_image.specs.Image.{dense_by};
ghost use Rattle.write_image.specs.Image.Laws.{Rise};
ghost use Rattle.write_group.specs.Span.{Spans, group_size};

use codes::ids::{put_id, same_id};
use codes::little::put_le;
use codes::varint::{put_varint, varint_len};
use group::Partner;
use group::head::Tag;
use write_source::edge_of;

// A group: the edge after its last, and its split cost.
#[derive(Clone, Copy)]
pub struct Span {
    pub end: usize,
    pub cost: usize,
}

// The bytes of a partner that is written split, its upper half as the difference to the one before.
fn partner_cost(up: u64) -> usize
    ensures { (result ≡ length (var_bytes up) + 8) × (result ≤ 18) }
{
    varint_len(up) + Partner::LOWER
}

// The group that begins at edge i, of n edges.
pub fn span_at(batch: &[u8], n: usize, i: usize) -> Span
    requires { (n ≡ length (edges_of batch.now)) × (n ≤ most_edges) × (i < n) × Grouped 0 (groups_of (drop i (edges_of batch.now))) }
    ensures { Spans (edges_of batch.now) i result }
{
    let first = edge_of(batch, i);
    let key = first.key;
    let p = first.partner;
    let mut hi = p.hi;
    let mut cost = partner_cost(hi);
    for j in i + 1..n {
        let other = edge_of(batch, j);
        if !same_id(other.key, key) {
            return Span { end: j, cost };
        }
        let q = other.partner;
        let upper = q.hi;
        cost += partner_cost(upper - hi);
        hi = upper;
    }
    Span { end: n, cost }
}

// Where it ends, alone: only keys are compared.
pub fn group_end(batch: &[u8], n: usize, i: usize) -> usize
    requires { (n ≡ length (edges_of batch.now)) × (i < n) }
    ensures { GroupEnd (edges_of batch.now) i result }
{
    let first = edge_of(batch, i);
    let key = first.key;
    for j in i + 1..n {
        let next = edge_of(batch, j);
        if !same_id(next.key, key) {
            return j;
        }
    }
    n
}

// The rule that makes a group dense.
pub fn dense_by(keys: usize, degree: usize, cost: usize) -> bool
    requires { (keys ≤ most_edges) × (degree ≤ most_edges) }
    ensures { result ≡ dense_by keys degree cost }
{
    if Partner::DENSE * degree <= cost {
        return true;
    }
    if degree <= 1024 {
        return false;
    }
    16 * keys < degree * degree
}

// The bytes that a group takes, and whether it is dense.
#[derive(Drop)]
pub struct Size {
    pub bytes: usize,
    pub dense: bool,
}

// A group of that degree and split cost, in a file of that many keys.
pub fn block_size(degree: usize, cost: usize, keys: usize) -> Size
    requires { (degree ≤ most_edges) × (cost ≤ 18 * degree) × (keys ≤ most_edges) }
    ensures { (result.dense ≡ dense_by keys degree cost) × (result.bytes ≡ group_size keys degree cost) × (result.bytes ≤ 11 + 18 * degree) }
{
    let head = varint_len(degree as u64) + 1;
    if dense_by(keys, degree, cost) {
        return Size {
            bytes: head + Partner::DENSE * degree,
            dense: true,
        };
    }
    Size {
        bytes: head + cost,
        dense: false,
    }
}

// Writes an upper half's difference and a lower half.
fn put_partner(out: &mut [u8], at: usize, up: u64, lo: u64) -> usize
    requires { at + length (var_bytes up) + 8 ≤ length out.old }
    ensures { Put out.old out.new at result (var_bytes up ++ le_bytes 8 lo) }
{
    let mid = put_varint(out, at, up);
    put_le(out, mid, Partner::LOWER, lo);
    mid + Partner::LOWER
}

// Writes the partners, split.
fn put_split(batch: &[u8], i: usize, j: usize, out: &mut [u8], at: usize) -> usize
    requires { (i ≤ j) × (j ≤ length (edges_of batch.now)) × Rise 0 (partners_in (part (edges_of batch.now) i j)) × (at + length (split_from 0 (partners_in (part (edges_of batch.now) i j))) ≤ length out.old) }
    ensures { Put out.old out.new at result (split_from 0 (partners_in (part (edges_of batch.now) i j))) }
{
    let mut to = at;
    let mut hi: u64 = 0;
    for k in i..j {
        let e = edge_of(batch, k);
        let p = e.partner;
        let upper = p.hi;
        to = put_partner(out, to, upper - hi, p.lo);
        hi = upper;
    }
    to
}

// Writes the partners, dense.
fn put_dense(batch: &[u8], i: usize, j: usize, out: &mut [u8], at: usize) -> usize
    requires { (i ≤ j) × (j ≤ length (edges_of batch.now)) × (at + length (bytes_of (partners_in (part (edges_of batch.now) i j))) ≤ length out.old) }
    ensures { Put out.old out.new at result (bytes_of (partners_in (part (edges_of batch.now) i j))) }
{
    let mut to = at;
    for k in i..j {
        let e = edge_of(batch, k);
        put_id(out, to, e.partner);
        to += Partner::DENSE;
    }
    to
}

// Writes a group's degree and tag.
fn put_head(out: &mut [u8], at: usize, degree: u64, tag: u8) -> usize
    requires { at + length (var_bytes degree) + 1 ≤ length out.old }
    ensures { Put out.old out.new at result (var_bytes degree ++ (tag ∷ [])) }
{
    let mid = put_varint(out, at, degree);
    out[mid] = tag;
    mid + 1
}

// Writes the group.
pub fn put_block(batch: &[u8], i: usize, j: usize, dense: bool, out: &mut [u8], at: usize) -> usize
    requires { (i ≤ j) × (j ≤ length (edges_of batch.now)) × Rise 0 (partners_in (part (edges_of batch.now) i j)) × (at + length (written_as dense (partners_in (part (edges_of batch.now) i j))) ≤ length out.old) }
    ensures { Put out.old out.new at result (written_as dense (partners_in (part (edges_of batch.now) i j))) }
{
    if dense {
        let mid = put_head(out, at, (j - i) as u64, Tag::DENSE);
        return put_dense(batch, i, j, out, mid);
    }
    let mid = put_head(out, at, (j - i) as u64, Tag::SPLIT);
    put_split(batch, i, j, out, mid)
}
