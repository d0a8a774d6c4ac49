// One group of complex packing (5.3): its integers X, judged in a first pass that writes nothing, and put into a lent run in a second one.
#![tactic(auto)]

ghost use Rattle.std.specs.Prelude.{◌≡◌, ℕ, suc, ◌+◌, ◌-◌, ◌*◌, ◌%◌, ◌^◌, ◌<◌, ◌≤◌, length, Some};
ghost use Rattle.laws_rows.specs.Rows.{row};
ghost use Rattle.bits.specs.Fours.{Foured};
ghost use Rattle.values_group.specs.Group.{worked_by, Limits, GroupKept, GroupGoes, integers_of, Gains, Follows, behind};

use bits_reader::BitReader;
use octets::BitPlace;

// A group as the recurrence takes it: the place of its first packed number, the width of each, its reference with what Zmin adds, what Zmin
// takes away, and how many of its numbers are used.
#[derive(Clone, Copy)]
pub struct Group {
    pub from: BitPlace,
    pub width: u32,
    pub base: u64,
    pub lowered: u64,
    pub count: u64,
}

// The last integer and the one before it.
#[derive(Clone, Copy)]
pub struct Latest {
    pub x: u64,
    pub before: u64,
}

impl Latest {
    // The integer that a packed number gives behind these two, where 2 ^ 64 counts as 0: one below 0 is far too large. It is the last one then. The
    // last integer comes into the sum last, so that a loop waits for one addition and no more. Twice the last integer wraps as well, so that nothing
    // is asked of the two.
    pub fn next(&mut self, packed: u32, gain: u64) -> u64
        ensures { Follows packed gain self.old result self.new }
    {
        let raised = std::num::wrapping_add_u64(packed as u64, gain);
        let twice = std::num::wrapping_add_u64(self.x, self.x);
        let x = std::num::wrapping_add_u64(std::num::wrapping_sub_u64(raised, self.before), twice);
        self.before = self.x;
        self.x = x;
        x
    }
}

// What an integer X becomes in the run that it is put into: X itself in a block, and its grey in a picture.
pub trait Becomes: Copy {
    type Element: Copy;

    ghost takes: { Self → ℕ → Type 0 };

    ghost becomes: { Self → ℕ → Self.Element };

    fn of(self, x: u32) -> Self::Element
        requires { takes self x }
        ensures { result ≡ becomes self x };
}

// An integer as it is.
#[derive(Clone, Copy)]
pub struct Itself;

impl Becomes for Itself {
    type Element = u32;

    ghost takes = { λ _ _. Unit {0} };

    ghost becomes = { λ _ x. x };

    fn of(self, x: u32) -> u32 {
        x
    }
}

// What is left of the group behind its first `done` numbers.
pub fn behind(group: Group, done: u64) -> Group
    requires { (done ≤ group.count) × (group.from.0 ≤ 1099511627776) × (group.width ≤ 31) × (group.count ≤ 4294967296) }
    ensures { result ≡ behind group done }
{
    Group {
        from: BitPlace(group.from.0 + done as usize * group.width as usize),
        count: group.count - done,
        ..group
    }
}

// What the recurrence adds to each packed number of the group, where 2 ^ 64 counts as 0.
pub fn gain_of(group: Group) -> u64
    requires { (group.base ≤ 8589934592) × (group.lowered ≤ 4294967296) }
    ensures gains { Gains result group.base group.lowered }
    ensures fits { result < 2 ^ 64 }
{
    std::num::wrapping_sub_u64(group.base, group.lowered)
}

// Works out the integers of the group one by one, behind the two latest, and stops at one that is out of its range: one test finds those that are too large and
// those below 0.
fn judge_each(section: &[u8], group: Group, latest: Latest) -> Option<Latest>
    requires { Limits group latest }
    ensures { result ≡ worked_by section.now group (Some latest) group.count }
{
    let width = group.width;
    let gain = gain_of(group);
    let mut reader = BitReader::new(section, group.from);
    let mut reached = latest;
    for _ in 0..group.count {
        let x = reached.next(reader.next(width), gain);
        if 2147483647 < x {
            return None;
        }
    }
    Some(reached)
}

// Works out so many fours of its first integers, where eight octets are left behind each. One test behind the last finds any that is out of its
// range: all bits that were seen are kept together, and a loop without a way out is compiled as one piece.
fn judge_fours(section: &[u8], group: Group, fours: u64, latest: Latest) -> Option<Latest>
    requires { (Limits group latest) × (Foured (length section.now) group.from.0 group.width group.count fours) }
    ensures { result ≡ worked_by section.now group (Some latest) (4 * fours) }
{
    let width = group.width;
    let gain = gain_of(group);
    let mut reader = BitReader::new(section, group.from);
    let mut reached = latest;
    let mut seen: u64 = 0;
    for _ in 0..fours {
        let [one, two, three, last] = reader.next_four(width);
        let first = reached.next(one, gain);
        let second = reached.next(two, gain);
        let third = reached.next(three, gain);
        let fourth = reached.next(last, gain);
        seen = seen | first | second | third | fourth;
    }
    if 2147483647 < seen {
        return None;
    }
    Some(reached)
}

// Works out the integers of the group, behind the two latest, and stops at one that is out of its range. It writes nothing.
pub fn judge(section: &[u8], group: Group, latest: Latest) -> Option<Latest>
    requires { Limits group latest }
    ensures { result ≡ worked_by section.now group (Some latest) group.count }
{
    let fours = bits::fours_in(section.len(), group.from, group.width, group.count as usize) as u64;
    let reached = judge_fours(section, group, fours, latest)?;
    judge_each(section, behind(group, 4 * fours), reached)
}

// An integer as a number of 31 bits. The remainder is the integer itself, and tells the compiler so.
pub fn element(x: u64) -> u32
    ensures { result ≡ x % 2147483648 }
{
    (x % 0x8000_0000) as u32
}

// Puts the first integers of the group one by one, one into each element of a run. All are in their range, which is not judged again.
fn put_each<B: Becomes>(
    section: &[u8],
    group: Group,
    latest: Latest,
    sink: B,
    run: &mut [B::Element],
) -> Latest
    requires limits { (Limits group latest) × (length run.old ≤ group.count) }
    requires group_kept { GroupKept section.now group latest (length run.old) }
    requires taken { (k : ℕ) → suc k ≤ length run.old → B.takes sink (integers_of section.now group latest k) }
    ensures group_goes { GroupGoes section.now group latest (length run.old) result }
    ensures run_after { run.new ≡ row (λ k. B.becomes sink (integers_of section.now group latest k)) (length run.old) }
{
    // The loop has a sink of its own: of the lent one the compiler cannot know that what is written leaves it alone.
    let own = sink;
    let width = group.width;
    let gain = gain_of(group);
    let mut reader = BitReader::new(section, group.from);
    let mut reached = latest;
    for place in run.iter_mut() {
        let x = reached.next(reader.next(width), gain);
        *place = own.of(element(x));
    }
    reached
}

// Puts so many fours of the group's first integers, where eight octets are left behind each, into a run of as many elements.
fn put_fours<B: Becomes>(
    section: &[u8],
    group: Group,
    fours: usize,
    latest: Latest,
    sink: B,
    run: &mut [B::Element],
) -> Latest
    requires limits { (Limits group latest) × (length run.old ≡ 4 * fours) }
    requires foured { Foured (length section.now) group.from.0 group.width group.count fours }
    requires group_kept { GroupKept section.now group latest (4 * fours) }
    requires taken { (k : ℕ) → suc k ≤ 4 * fours → B.takes sink (integers_of section.now group latest k) }
    ensures group_goes { GroupGoes section.now group latest (4 * fours) result }
    ensures run_after { run.new ≡ row (λ k. B.becomes sink (integers_of section.now group latest k)) (4 * fours) }
{
    let own = sink;
    let width = group.width;
    let gain = gain_of(group);
    let mut reader = BitReader::new(section, group.from);
    let mut reached = latest;
    for four in 0..fours {
        let i = 4 * four;
        let [first, second, third, fourth] = reader.next_four(width);
        let one = reached.next(first, gain);
        let two = reached.next(second, gain);
        let three = reached.next(third, gain);
        let last = reached.next(fourth, gain);
        run[i] = own.of(element(one));
        run[i + 1] = own.of(element(two));
        run[i + 2] = own.of(element(three));
        run[i + 3] = own.of(element(last));
    }
    reached
}

// Puts the first integers of the group, one into each element of a lent run, behind the two latest: four at a time, and what is left one by one.
pub fn put<B: Becomes>(
    section: &[u8],
    group: Group,
    latest: Latest,
    sink: B,
    run: &mut [B::Element],
) -> Latest
    requires limits { (Limits group latest) × (length run.old ≤ group.count) }
    requires group_kept { GroupKept section.now group latest (length run.old) }
    requires taken { (k : ℕ) → suc k ≤ length run.old → B.takes sink (integers_of section.now group latest k) }
    ensures group_goes { GroupGoes section.now group latest (length run.old) result }
    ensures run_after { run.new ≡ row (λ k. B.becomes sink (integers_of section.now group latest k)) (length run.old) }
{
    let fours = bits::fours_in(section.len(), group.from, group.width, run.len());
    let (front, back) = run.split_at_mut(4 * fours);
    let reached = put_fours(section, group, fours, latest, sink, front);
    let rest = behind(group, 4 * fours as u64);
    put_each(section, rest, reached, sink, back)
}

// Puts integers of the group into a lent block, from number `done` on, one for each element of the block, behind the two latest.
pub fn unpack(section: &[u8], group: Group, done: u64, block: &mut [u32], latest: Latest) -> Latest
    requires limits { (Limits group latest) × (done + length block.old ≤ group.count) }
    requires group_kept { GroupKept section.now (behind group done) latest (length block.old) }
    ensures group_goes { GroupGoes section.now (behind group done) latest (length block.old) result }
    ensures block_after { block.new ≡ row (integers_of section.now (behind group done) latest) (length block.old) }
{
    put(section, behind(group, done), latest, Itself, block)
}
