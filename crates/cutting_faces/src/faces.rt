// The faces of one part, in their old order: what each table has of them. Every column answers how many there are.
ghost use Rattle.std.specs.Prelude.{◌≡◌, ◌≢◌, cond, not, ℕ, ◌^◌, ◌≤◌, ◌<◌, pos, length, get_or};
ghost use Rattle.lists.specs.Table.{over};
ghost use Rattle.lists.specs.Marked.{count, picked};
ghost use Rattle.signed.specs.Sign.{size, is_negative, with_sign, turn};
ghost use Rattle.model.specs.Mesh.{rim};
ghost use Rattle.cutting_pieces.specs.Pieces.{has_label, cutting, touching_at, number_at, second_at, spacing_at, amount_at, outside_at, FacesLent, EndsIn};

use cutting_pieces::{flip, is_cut, is_in, keep, touches};
use model::RIM;
use signed::{is_negative_at, size_at, with_sign};

// The number of the end that is in the part.
fn near_number(part: u64, labels: &[u64], numbers: &[u64], first: u64, second: u64) -> u64
    requires { (first < length labels.now) × (first < length numbers.now) × (second < length numbers.now) }
    ensures { result ≡ get_or numbers.now (cond (not (has_label labels.now part first)) second first) 0 }
{
    if is_in(part, labels, first) {
        return numbers[first as usize];
    }
    numbers[second as usize]
}

// One of two entries, by whether the face is between the parts.
fn unless_cut(part: u64, labels: &[u64], first: u64, second: u64, instead: u64, entry: u64) -> u64
    requires { (first < length labels.now) × (second ≢ rim → second < length labels.now) }
    ensures { result ≡ cond (cutting labels.now part first second) instead entry }
{
    if is_cut(part, labels, first, second) {
        return instead;
    }
    entry
}

// The sign of a face's flux in the part: turned where its first cell is not in it.
fn is_minus(part: u64, labels: &[u64], first: u64, amounts: &[i64], f: usize) -> bool
    requires { (first < length labels.now) × (f < length amounts.now) }
    ensures { result ≡ cond (not (has_label labels.now part first))
        (not (is_negative (get_or amounts.now f (pos 0)))) (is_negative (get_or amounts.now f (pos 0))) }
{
    let turns = !is_in(part, labels, first);
    flip(turns, is_negative_at(amounts, f))
}

// A face's flux in the part: negated where the face is turned.
fn flux(part: u64, labels: &[u64], first: u64, amounts: &[i64], f: usize) -> i64
    requires { (first < length labels.now) × (f < length amounts.now) × (size (get_or amounts.now f (pos 0)) < 2 ^ 63) }
    ensures { result ≡ turn (not (has_label labels.now part first)) (get_or amounts.now f (pos 0)) }
{
    let minus = is_minus(part, labels, first, amounts, f);
    with_sign(minus, size_at(amounts, f))
}

// What water that enters through a cut face brings: the concentration across.
fn entering(
    part: u64,
    labels: &[u64],
    q: &[u64],
    first: u64,
    second: u64,
    minus: bool,
    amount: u64,
) -> u64
    requires { (first < length labels.now) × (first < length q.now) × (second < length q.now) }
    ensures { result ≡ cond (is_negative (with_sign minus amount))
        (get_or q.now (cond (not (has_label labels.now part first)) first second) 0) 0 }
{
    if !minus {
        return 0;
    }
    if amount == 0 {
        return 0;
    }
    if is_in(part, labels, first) {
        return q[second as usize];
    }
    q[first as usize]
}

// The outside value of a face: at a cut what enters with the water.
fn outside(
    part: u64,
    labels: &[u64],
    q: &[u64],
    first: u64,
    second: u64,
    amounts: &[i64],
    f: usize,
    value: u64,
) -> u64
    requires labelled { (first < length labels.now) × (second ≢ rim → second < length labels.now) }
    requires in_bounds { (first < length q.now) × (second < length q.now) × (f < length amounts.now) }
    ensures { result ≡ cond (cutting labels.now part first second)
        (cond (is_negative (turn (not (has_label labels.now part first)) (get_or amounts.now f (pos 0))))
        (get_or q.now (cond (not (has_label labels.now part first)) first second) 0) 0)
        value }
{
    let minus = is_minus(part, labels, first, amounts, f);
    let amount = size_at(amounts, f);
    let enters = entering(part, labels, q, first, second, minus, amount);
    unless_cut(part, labels, first, second, enters, value)
}

// What the faces of the part have, one entry of each by its place and its ends; how many there are.
fn by_face<T: Copy, F: Fn(usize, u64, u64) -> T>(
    faces: usize,
    part: u64,
    labels: &[u64],
    firsts: &[u64],
    seconds: &[u64],
    entry: F,
    out: &mut [T],
) -> usize
    requires faces_lent { FacesLent faces labels.now firsts.now seconds.now × (faces ≤ length out.old) }
    requires has_entry { (f : ℕ) → f < faces → F.pre entry f (get_or firsts.now f 0) (get_or seconds.now f 0) }
    ensures value { result ≡ count faces (touching_at labels.now part firsts.now seconds.now) }
    ensures out_after { (entry_at : ℕ → T)
        → ((f : ℕ) → f < faces → (e : T) → F.post entry f (get_or firsts.now f 0) (get_or seconds.now f 0) e → e ≡ entry_at f)
        → out.new ≡ over (picked faces (touching_at labels.now part firsts.now seconds.now) entry_at) out.old }
{
    let mut at = 0;
    for f in 0..faces {
        let first = firsts[f];
        let second = seconds[f];
        let marked = touches(part, labels, first, second);
        at = keep(marked, at, entry(f, first, second), out);
    }
    at
}

// Their first cells: the end that is in the part, by its new number.
pub fn firsts(
    faces: usize,
    part: u64,
    labels: &[u64],
    numbers: &[u64],
    firsts: &[u64],
    seconds: &[u64],
    out: &mut [u64],
) -> usize
    requires faces_lent { FacesLent faces labels.now firsts.now seconds.now × (faces ≤ length out.old) }
    requires ends_in { EndsIn faces numbers.now firsts.now seconds.now }
    ensures value { result ≡ count faces (touching_at labels.now part firsts.now seconds.now) }
    ensures out_after { out.new ≡ over (picked faces (touching_at labels.now part firsts.now seconds.now)
        (number_at labels.now part firsts.now seconds.now numbers.now))
        out.old }
{
    let entry = |_f: usize, first: u64, second: u64| {
        near_number(part, labels, numbers, first, second)
    };
    by_face(faces, part, labels, firsts, seconds, entry, out)
}

// Their second cells, which a cut face has none of. The rim's mark is its own number.
pub fn seconds(
    faces: usize,
    part: u64,
    labels: &[u64],
    numbers: &[u64],
    firsts: &[u64],
    seconds: &[u64],
    out: &mut [u64],
) -> usize
    requires faces_lent { FacesLent faces labels.now firsts.now seconds.now × (faces ≤ length out.old) }
    requires ends_in { EndsIn faces numbers.now firsts.now seconds.now }
    ensures value { result ≡ count faces (touching_at labels.now part firsts.now seconds.now) }
    ensures out_after { out.new ≡ over (picked faces (touching_at labels.now part firsts.now seconds.now)
        (second_at labels.now part firsts.now seconds.now numbers.now))
        out.old }
{
    let entry = |_f: usize, first: u64, second: u64| {
        unless_cut(part, labels, first, second, RIM, numbers[second as usize])
    };
    by_face(faces, part, labels, firsts, seconds, entry, out)
}

// Their shares or reaches: a cut face has 0.
pub fn spacings(
    faces: usize,
    part: u64,
    labels: &[u64],
    firsts: &[u64],
    seconds: &[u64],
    entries: &[u64],
    out: &mut [u64],
) -> usize
    requires faces_lent { FacesLent faces labels.now firsts.now seconds.now × (faces ≤ length out.old) }
    requires faces_in_bounds { faces ≤ length entries.now }
    ensures value { result ≡ count faces (touching_at labels.now part firsts.now seconds.now) }
    ensures out_after { out.new ≡ over (picked faces (touching_at labels.now part firsts.now seconds.now)
        (spacing_at labels.now part firsts.now seconds.now entries.now))
        out.old }
{
    let entry = |f: usize, first: u64, second: u64| {
        unless_cut(part, labels, first, second, 0, entries[f])
    };
    by_face(faces, part, labels, firsts, seconds, entry, out)
}

// Their fluxes, a turned face's negated.
pub fn fluxes(
    faces: usize,
    part: u64,
    labels: &[u64],
    firsts: &[u64],
    seconds: &[u64],
    amounts: &[i64],
    out: &mut [i64],
) -> usize
    requires faces_lent { FacesLent faces labels.now firsts.now seconds.now × (faces ≤ length out.old) }
    requires faces_in_bounds { (faces ≤ length amounts.now) × ((f : ℕ) → f < faces → size (get_or amounts.now f (pos 0)) < 2 ^ 63) }
    ensures value { result ≡ count faces (touching_at labels.now part firsts.now seconds.now) }
    ensures out_after { out.new ≡ over (picked faces (touching_at labels.now part firsts.now seconds.now)
        (amount_at labels.now part firsts.now seconds.now amounts.now))
        out.old }
{
    let entry = |f: usize, first: u64, _second: u64| flux(part, labels, first, amounts, f);
    by_face(faces, part, labels, firsts, seconds, entry, out)
}

// Their outside values: at a cut face what enters with the water.
pub fn outsides(
    faces: usize,
    part: u64,
    labels: &[u64],
    q: &[u64],
    firsts: &[u64],
    seconds: &[u64],
    amounts: &[i64],
    values: &[u64],
    out: &mut [u64],
) -> usize
    requires faces_lent { FacesLent faces labels.now firsts.now seconds.now × (faces ≤ length out.old) }
    requires ends_in { EndsIn faces q.now firsts.now seconds.now }
    requires faces_in_bounds { (faces ≤ length values.now) × (faces ≤ length amounts.now) × ((f : ℕ) → f < faces → size (get_or amounts.now f (pos 0)) < 2 ^ 63) }
    ensures value { result ≡ count faces (touching_at labels.now part firsts.now seconds.now) }
    ensures out_after { out.new ≡ over (picked faces (touching_at labels.now part firsts.now seconds.now)
        (outside_at labels.now part firsts.now seconds.now q.now amounts.now values.now))
        out.old }
{
    let entry = |f: usize, first: u64, second: u64| {
        outside(part, labels, q, first, second, amounts, f, values[f])
    };
    by_face(faces, part, labels, firsts, seconds, entry, out)
}
