// A list of forty areas as numbers, the oldest first: twice the area, and one more where its mark is protected.
#![tactic(auto)]

ghost use Rattle.std.specs.Prelude.{◌≡◌, [], ◌∷◌, ◌++◌, ◌≤◌, ◌<◌, ◌^◌, length, drop};
ghost use Rattle.areas.specs.Areas.{area_of, areas_held, area_found, listed_in, marked, placed, placed_count, stayed, swept_list, list_after, count_after};

// What an event does to a list: a reject puts an area there, T3247 out, all areas clear. An area is a network and a code.
// Kept: no plainer, nothing is one of the tasks that a plan has for each list (`list_after`), and no task is looked for.
#[derive(Clone, Copy)]
pub enum Task {
    Nothing,
    Put { net: u32, code: u32, protected: u8 },
    Sweep,
    Clear,
}

// Areas in use: a count above forty counts as forty.
pub fn size(count: u8) -> usize
    ensures value { result ≡ areas_held count }
    ensures upper_bound { result ≤ 40 }
{
    if count < 40 { count as usize } else { 40 }
}

// Any network and code make an area that leaves room for its mark.
fn area(net: u32, code: u32) -> u64
    ensures value { result ≡ area_of net code }
    ensures upper_bound { result < 2 ^ 57 }
{
    u64::from(net) * 16777216 + u64::from(code)
}

fn seek(list: &[u64; 40], count: u8, area: u64) -> Option<usize>
    ensures { result ≡ area_found area count list.now }
{
    list[..size(count)].iter().position(|x| *x / 2 == area)
}

pub fn listed(net: u32, code: u32, count: u8, list: &[u64; 40]) -> bool
    ensures { result ≡ listed_in (area_of net code) count list.now }
{
    seek(list, count, area(net, code)).is_some()
}

fn mark(area: u64, protected: u8) -> u64
    requires { area < 2 ^ 57 }
    ensures { result ≡ marked area protected }
{
    if protected == 0 {
        area * 2
    } else {
        area * 2 + 1
    }
}

// A full list drops its oldest.
fn push(list: &mut [u64; 40], x: u64)
    ensures { list.new ≡ drop 1 list.old ++ (x ∷ []) }
{
    list.rotate_left(1);
    list[39] = x;
}

// An unprotected reject leaves the element that is there.
fn put(area: u64, protected: u8, count: u8, list: &mut [u64; 40]) -> u8
    requires { area < 2 ^ 57 }
    ensures list_after { list.new ≡ placed area protected count list.old }
    ensures value { result ≡ placed_count area count list.old }
{
    let x = mark(area, protected);
    if let Some(at) = seek(list, count, area) {
        if protected != 0 {
            list[at] = x;
        }
        return count;
    }
    if count < 40 {
        list[count as usize] = x;
        return count + 1;
    }
    push(list, x);
    count
}

// Those that stay move up in their order; behind them the array is as it was.
// Kept: an index for the place written: `retain` is of `Vec`, and this is fixed memory.
fn sweep(count: u8, list: &mut [u64; 40]) -> u8
    ensures list_after { list.new ≡ swept_list count list.old }
    ensures value { result ≡ length (stayed count list.old) }
{
    let mut j: u8 = 0;
    for i in 0..size(count) {
        let x = list[i];
        if x % 2 == 1 {
            list[j as usize] = x;
            j += 1;
        }
    }
    j
}

// Kept: a count beside its array: the C interface has it among the device's numbers.
pub fn tend(t: Task, count: u8, list: &mut [u64; 40]) -> u8
    ensures list_after { list.new ≡ list_after t count list.old }
    ensures value { result ≡ count_after t count list.old }
{
    match t {
        Task::Nothing => count,
        Task::Put {
            net,
            code,
            protected,
        } => put(area(net, code), protected, count, list),
        Task::Sweep => sweep(count, list),
        Task::Clear => {
            *list = [0; 40];
            0
        }
    }
}
