// The table of sorts of a list's nodes, one entry a node.
ghost use Rattle.std.specs.Prelude.{◌≡◌, cond, ◌+◌, ◌*◌, ◌≤◌, leb, length, get_or, take};
ghost use Rattle.sorts.specs.Sorts.{sort_row};
ghost use Rattle.sorts.specs.Lists.{sorts, row_sort};
ghost use Rattle.evaluator.specs.Table.{Tables};

use sorts::CheckError;

// The sort of operand a of node n: 0 where it is not earlier, or where the node's kind has no such operand. A test beside a number and no Option, which each call would wrap for this to take apart.
fn at(t: &[u16], n: usize, on: bool, a: u64) -> u16
    requires { n ≤ length t.now }
    ensures { result ≡ cond on (get_or (take n t.now) a 0) 0 }
{
    if on && a < n as u64 { t[a as usize] } else { 0 }
}

// The sort of a node whose kind has N operands: no other sort is read.
fn of<const N: usize>(t: &[u16], n: usize, k: u64, a: u64, b: u64, c: u64) -> u64
    requires { n ≤ length t.now }
    ensures { result ≡ sort_row k a b c (cond (leb 1 N) (get_or (take n t.now) a 0) 0) (cond (leb 2 N) (get_or (take n t.now) b 0) 0) (cond (leb 3 N) (get_or (take n t.now) c 0) 0) }
{
    sorts::sort_of(
        k,
        a,
        b,
        c,
        at(t, n, 1 <= N, a),
        at(t, n, 2 <= N, b),
        at(t, n, 3 <= N, c),
    )
}

// The sort of node i, from the sorts of the earlier nodes: of each kind those of its operands. An arm a kind, and kinds as numbers: of a call with a constant kind the compiler keeps one arm of sort_of (docs/DECISIONS.md, 'A table is asked with a constant kind').
fn node_sort(nodes: &[u64], t: &[u16], i: usize) -> u64
    requires { (4 * i + 4 ≤ length nodes.now) × (i ≤ length t.now) × (take i t.now ≡ sorts nodes.now i) }
    ensures { result ≡ row_sort nodes.now i (sorts nodes.now i) }
{
    let j = 4 * i;
    let k = nodes[j];
    let a = nodes[j + 1];
    let b = nodes[j + 2];
    let c = nodes[j + 3];
    match k {
        1 => of::<0>(t, i, 1, a, b, c),
        2 => of::<0>(t, i, 2, a, b, c),
        3 => of::<0>(t, i, 3, a, b, c),
        4 => of::<0>(t, i, 4, a, b, c),
        5 => of::<0>(t, i, 5, a, b, c),
        6 => of::<0>(t, i, 6, a, b, c),
        7 => of::<2>(t, i, 7, a, b, c),
        8 => of::<2>(t, i, 8, a, b, c),
        9 => of::<2>(t, i, 9, a, b, c),
        10 => of::<2>(t, i, 10, a, b, c),
        11 => of::<2>(t, i, 11, a, b, c),
        12 => of::<1>(t, i, 12, a, b, c),
        13 => of::<3>(t, i, 13, a, b, c),
        14 => of::<1>(t, i, 14, a, b, c),
        15 => of::<2>(t, i, 15, a, b, c),
        16 => of::<2>(t, i, 16, a, b, c),
        17 => of::<2>(t, i, 17, a, b, c),
        18 => of::<2>(t, i, 18, a, b, c),
        19 => of::<2>(t, i, 19, a, b, c),
        20 => of::<2>(t, i, 20, a, b, c),
        21 => of::<2>(t, i, 21, a, b, c),
        22 => of::<1>(t, i, 22, a, b, c),
        23 => of::<1>(t, i, 23, a, b, c),
        24 => of::<1>(t, i, 24, a, b, c),
        25 => of::<1>(t, i, 25, a, b, c),
        26 => of::<1>(t, i, 26, a, b, c),
        27 => of::<1>(t, i, 27, a, b, c),
        28 => of::<1>(t, i, 28, a, b, c),
        29 => of::<1>(t, i, 29, a, b, c),
        _ => 0,
    }
}

// The sorts of the first `count` nodes to the front of a lent table, up to the first node without one; nothing where the list or the table has no room for them.
pub fn fill(nodes: &[u64], count: usize, t: &mut [u16]) -> Result<(), CheckError>
    ensures { Tables nodes.now count result t.old t.new }
{
    if t.len() < count || (lists::room(nodes.len()) as usize) < count {
        return Err(CheckError::Room);
    }
    for i in 0..count {
        let s = node_sort(nodes, &*t, i);
        if s == 0 {
            return Err(CheckError::Fault(i));
        }
        t[i] = s as u16;
    }
    Ok(())
}
