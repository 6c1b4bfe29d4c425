// What an insert will do, decided before anything is written: a refusal of document 01's table, or a plan of slot numbers and lengths.
// F pairs are never stored, so a split is planned on the leaf's pairs with the new one at its place.
#![tactic(auto)]

ghost use Rattle.std.specs.Prelude.{◌≡◌, ◌+◌, ◌^◌, ◌≤◌, ◌<◌, suc, ℕ};
ghost use Rattle.layout.specs.Pieces.{pair_in};
ghost use Rattle.layout.specs.Viewed.{leaves_of};
ghost use Rattle.order.specs.Bytes.{common};
ghost use Rattle.route.specs.Routes.{leaf_at};
ghost use Rattle.judge.specs.Judges.{BesideSpot, CommonAsked, GapAsked, JudgesOn, KeySpot, NewAsked, PlanIs, cut_common, offset_at, offset_by, old_judged};

use layout::lent::View;
use leaf::Leaf;
use model::Refusal;
use order::common;
use route::{low_key, upper_key};
use spots::{Spot, read_spot, seek};
use words::{LowKey, pair_count};

// The half of a split leaf that the new pair goes to, before the slot that it names.
#[derive(Debug, Clone, Copy, PartialEq, Eq)]
pub enum Half {
    Left(usize),
    Right(usize),
}

// A split: `cut` of the leaf's stored pairs stay left, the separator has so many bytes, and the new pair goes to one half.
#[derive(Debug, Clone, Copy, PartialEq, Eq)]
pub struct Plan {
    pub leaf: usize,
    pub cut: usize,
    pub separator: usize,
    pub half: Half,
}

// Whether the leaf stays below F pairs with the new one, which then goes before the spot, or is full.
#[derive(Debug, Clone, Copy, PartialEq, Eq)]
pub enum Fit {
    Slack(Spot),
    Full(Plan),
}

#[derive(Debug, Clone, Copy, PartialEq, Eq)]
pub enum Judged {
    Replace(Spot),
    Insert(Fit),
}

// L4: for n pairs, with the length of the low key.
fn split_offset(n: usize, low: usize, upper: Option<LowKey>) -> usize
    requires { 2 ≤ n }
    ensures { result ≡ offset_by n low upper }
{
    if low == 0 {
        return 1;
    }
    match upper {
        None => n - 2,
        Some(_) => n / 2,
    }
}

// L4's offset of the j-th leaf, once it holds F pairs.
fn offset_of(v: &View<'_>, j: usize) -> usize
    requires { j < v.now.header.leaves }
    ensures { result ≡ offset_at v.now.header.fanout (leaves_of v.now) j }
{
    let low = low_key(v.header.fanout, v.slots, v.dir[j]);
    let upper = upper_key(v.header, v.dir, v.slots, j);
    split_offset(v.header.fanout, low.length, upper)
}

// The equal leading bytes of a key and of a pair's key in the leaf that owns it.
fn common_with(v: &View<'_>, key: &[u8], t: Spot) -> usize
    requires { KeySpot v.now key.now t }
    ensures { result ≡ common key.now (pair_in (leaves_of v.now) t.leaf t.slot).key }
{
    let x = read_spot(v, t);
    let start = x.slot.offset.0;
    let end = start + x.slot.suffix;
    x.prefix + common(&key[x.prefix..], &v.arena[start..end])
}

// The equal leading bytes of a pair's key and the next one's, both in one leaf.
fn common_beside(v: &View<'_>, t: Spot) -> usize
    requires { BesideSpot v.now t }
    ensures { result ≡ common (pair_in (leaves_of v.now) t.leaf t.slot).key (pair_in (leaves_of v.now) t.leaf (suc t.slot)).key }
{
    let x = read_spot(v, t);
    let y = read_spot(
        v,
        Spot {
            leaf: t.leaf,
            slot: t.slot + 1,
        },
    );
    let i = x.slot.offset.0;
    let j = y.slot.offset.0;
    let end_i = i + x.slot.suffix;
    let end_j = j + y.slot.suffix;
    x.prefix + common(&v.arena[i..end_i], &v.arena[j..end_j])
}

// The equal leading bytes of the two keys at the cut in front of the s-th of F pairs; the new key is one of them where it stands beside it.
fn common_at(v: &View<'_>, key: &[u8], t: Spot, s: usize) -> usize
    requires { CommonAsked v.now key.now t s }
    ensures { result ≡ cut_common key.now (leaf_at (leaves_of v.now) t.leaf).pairs t.slot s }
{
    let leaf = t.leaf;
    let i = t.slot;
    if i + 1 < s {
        return common_beside(v, Spot { leaf, slot: s - 2 });
    }
    if s < i {
        return common_beside(v, Spot { leaf, slot: s - 1 });
    }
    common_with(v, key, Spot { leaf, slot: s - 1 })
}

// The plan of a split: the new key stands in the gap before the spot, and its leaf then has F pairs.
fn plan_split(v: &View<'_>, key: &[u8], t: Spot) -> Plan
    requires { GapAsked v.now key.now t }
    ensures { PlanIs v.now.header.fanout key.now (leaves_of v.now) t result }
{
    let leaf = t.leaf;
    let i = t.slot;
    let s = offset_of(v, leaf);
    let separator = common_at(v, key, t, s) + 1;
    if i < s {
        return Plan {
            leaf,
            cut: s - 1,
            separator,
            half: Half::Left(i),
        };
    }
    Plan {
        leaf,
        cut: s,
        separator,
        half: Half::Right(i - s),
    }
}

// The key has a pair, whose value has `old` bytes: refusal 5, then 8.
fn judge_old(
    charge: usize,
    room: usize,
    value: usize,
    out: usize,
    old: usize,
    t: Spot,
) -> Result<Judged, Refusal>
    requires { (old ≤ charge) × (charge + value < 2 ^ 32) }
    ensures { result ≡ old_judged charge room value out old t }
{
    if out < old {
        return Err(Refusal::ShortOutput(old));
    }
    if room < charge - old + value {
        return Err(Refusal::NoRoom);
    }
    Ok(Judged::Replace(t))
}

// The key is new, and stands in the gap before the spot: refusal 7, then 8.
fn judge_new(v: &View<'_>, key: &[u8], value: &[u8], t: Spot) -> Result<Judged, Refusal>
    requires { NewAsked v.now key.now value.now t }
    ensures { (out : ℕ) → JudgesOn v.now key.now value.now out result }
{
    let after = v.header.charge + key.len() + value.len();
    let pairs = pair_count(v.dir[t.leaf]);
    if pairs + 1 < v.header.fanout {
        if v.arena.len() < after {
            return Err(Refusal::NoRoom);
        }
        return Ok(Judged::Insert(Fit::Slack(t)));
    }
    if v.dir.len() <= v.header.leaves {
        return Err(Refusal::NoLeaf);
    }
    let p = plan_split(v, key, t);
    if v.arena.len() < after + p.separator {
        return Err(Refusal::NoRoom);
    }
    Ok(Judged::Insert(Fit::Full(p)))
}

// Refusals 3 and 4; then by where the key stands in the leaf that owns it.
pub fn judge(v: &View<'_>, key: &[u8], value: &[u8], out: usize) -> Result<Judged, Refusal>
    ensures { JudgesOn v.now key.now value.now out result }
{
    if Leaf::long_key(key.len()) {
        return Err(Refusal::LongKey);
    }
    if Leaf::long_value(value.len()) {
        return Err(Refusal::LongValue);
    }
    match seek(v, key) {
        Ok(t) => {
            let x = read_spot(v, t);
            judge_old(
                v.header.charge,
                v.arena.len(),
                value.len(),
                out,
                x.slot.value,
                t,
            )
        }
        Err(t) => judge_new(v, key, value, t),
    }
}
