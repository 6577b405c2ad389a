// The list that the programs replay: sections until its end. A section: u32 operation, u32 number of cases, u32 bytes a case, the operation's name in 20 bytes,
// then the cases. All numbers low byte first. A program brings the look at one case, and this crate goes through the list and prints how many were the same.
#![tactic(auto)]

ghost use Rattle.std.specs.Prelude.{◌≡◌, ◌≤◌, IfOk};
ghost use Rattle.base_fields.specs.Field.{field_at};

use std::io;
use std::io::Read;

// What a section's head says.
#[derive(Clone, Copy, Debug, PartialEq, Eq)]
pub struct Section {
    pub operation: u64,
    pub cases: u64,
    pub size: u64,
}

impl Section {
    pub fn of(head: &[u8; 32]) -> Section
        ensures { result ≡ record { operation = field_at head.now 0 4; cases = field_at head.now 4 4; size = field_at head.now 8 4 } }
    {
        Section {
            operation: base_fields::number_at(head, 0, 4),
            cases: base_fields::number_at(head, 4, 4),
            size: base_fields::number_at(head, 8, 4),
        }
    }
}

// What a program brings: its look at one case of an operation. The case stands at the start of a buffer.
pub trait Replayed {
    // Whether our answer to the case is the list's.
    fn same(&self, operation: u64, case: &[u8]) -> bool;
}

fn case_same(list: &mut impl Read, section: Section, replayed: &impl Replayed) -> io::Result<bool> {
    let mut case = program_io::buffer();
    if !program_io::read_whole(list, &mut case, section.size)? {
        return Ok(false);
    }
    Ok(replayed.same(section.operation, &case))
}

// How many cases of a section were the same before the first that was not, and all where every one was.
pub fn cases_same(
    list: &mut impl Read,
    section: Section,
    replayed: &impl Replayed,
) -> io::Result<u64>
    ensures { IfOk result (λ cases. cases ≤ section.cases) }
{
    for cases in 0..section.cases {
        if !case_same(list, section, replayed)? {
            return Ok(cases);
        }
    }
    Ok(section.cases)
}

// Prints how many were the same, and answers whether all were.
fn print_same(rt: &impl Print, same: u64, cases: u64) -> io::Result<bool> {
    if same < cases {
        println!(rt; "{same} same and the next differs")?;
        return Ok(false);
    }
    println!(rt; "{same} same")?;
    Ok(true)
}

// Whether there was a section, and all its cases were the same.
fn section_same(
    rt: &impl Print,
    list: &mut impl Read,
    replayed: &impl Replayed,
) -> io::Result<bool> {
    let mut head = [0u8; 32];
    if !program_io::read_whole(list, &mut head, 32)? {
        return Ok(false);
    }
    rt.write_all(&head[12..])?;
    let section = Section::of(&head);
    let cases = cases_same(list, section, replayed)?;
    print_same(rt, cases, section.cases)
}

// The most sections of a list that are replayed: nothing says that the input ends, so they are counted.
const SECTIONS: u64 = 64;

// Replays a list, and stops after the first case that differs. Answers of how many sections all cases were the same.
pub fn replay(rt: &impl Print, list: &mut impl Read, replayed: &impl Replayed) -> io::Result<u64>
    ensures { IfOk result (λ sections. sections ≤ 64) }
{
    for sections in 0..SECTIONS {
        if !section_same(rt, list, replayed)? {
            return Ok(sections);
        }
    }
    Ok(SECTIONS)
}
