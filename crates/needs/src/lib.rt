// Which nodes a root needs: one pass from the root down over a lent column of marks.
#![tactic(auto)]

ghost use Rattle.std.specs.Prelude.{◌≡◌, ◌+◌, ◌*◌, ◌≤◌, ◌<◌, length};
ghost use Rattle.needs.specs.Needed.{arity, marked, spread, marked_from};

// How many operands a node of a kind has: they are the first of its three words a, b, c. A kind is a number, as in sorts: any word of a lent list is taken.
#[tactic(auto, unfolding(crate::specs::Needed::arity))]
pub fn arity(k: u64) -> u64
    ensures { result ≡ arity k }
{
    match k {
        7..=11 | 15..=21 => 2,
        12 | 14 | 22..=29 => 1,
        13 => 3,
        _ => 0,
    }
}

// Marks a where it is an operand of node i: one that is not earlier is none. A test beside a number and no Option, which each call would wrap for this to take apart.
#[tactic(auto, unfolding(crate::specs::Needed::marked))]
fn one(m: &mut [u8], i: usize, on: bool, a: u64)
    requires { i ≤ length m.old }
    ensures { m.new ≡ marked i on a m.old }
{
    if on && a < i as u64 {
        m[a as usize] = 1;
    }
}

// Marks the operands of node i, where node i is marked.
fn step(nodes: &[u64], i: usize, m: &mut [u8])
    requires { (4 * i + 4 ≤ length nodes.now) × (i < length m.old) }
    ensures { m.new ≡ spread nodes.now i m.old }
{
    if m[i] != 1 {
        return;
    }
    let j = 4 * i;
    let n = arity(nodes[j]);
    let a = nodes[j + 1];
    let b = nodes[j + 2];
    let c = nodes[j + 3];
    one(m, i, 1 <= n, a);
    one(m, i, 2 <= n, b);
    one(m, i, 3 <= n, c);
}

// Marks with 1 what the root needs, in a column that is clear: nothing is changed where the list has no such row or the column no such entry.
pub fn mark(nodes: &[u64], root: usize, m: &mut [u8])
    ensures { m.new ≡ marked_from nodes.now root m.old }
{
    if nodes.len() / 4 <= root || m.len() <= root {
        return;
    }
    m[root] = 1;
    for i in (0..=root).rev() {
        step(nodes, i, m);
    }
}
