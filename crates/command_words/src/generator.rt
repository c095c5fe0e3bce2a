// An events file that is made and not read, and the script that is answered on it.
ghost use Rattle.std.specs.Prelude.{◌≡◌, ◌≤◌, ◌/◌, ◌%◌, ◌++◌, pos, ◌-ℤ◌, length, IfOk, OnOk};
ghost use Rattle.graph_model.specs.Limits.{most_script_bytes};
ghost use Rattle.command_words.specs.Command.{most_generated};
ghost use Rattle.command_words.specs.Generator.{edge_fields, generated_file, generated_script, number_after, record_line};

use graph_model::Memory;
use itoa::{Buffer, Integer};
use std::alloc::Global;

/// The most records that the generator makes.
pub const MOST_GENERATED: u32 = 1_000_000;

// A record has no more bytes than `edge,999999,n999,n999,l3,w:i=6` and its end.
const MOST_RECORD_BYTES: usize = 31;

const SCRIPT: &str = r#"{"ask":["events"]}
{"views":[["layers",["l1"]],["window",0,1000]],"ask":["events"]}
{"views":[["window",0,500],["subgraph",["n838","n758"]]],"ask":["degree"]}
{"each":["expanding",250000],"ask":["events"]}
"#;

const NODES: u32 = 1_000;

const LAYERS: u32 = 4;

// The values of the property are below this.
const VALUES: u32 = 7;

// An edge is added at one of so many moments up to its number.
const MOMENTS: u32 = 50;

/// The script of the generator, in four lines: how many events there are, how many in a layer and a window, the
/// degrees of two nodes in a window, and how many events there are in windows that grow by 250,000. It takes no memory.
#[tactic(auto, unfolding(crate::specs::Generator::generated_script))]
pub fn generator_script() -> &'static str
    ensures script { result.now ≡ generated_script }
    ensures short { length result.now ≤ most_script_bytes }
{
    SCRIPT
}

/// The events file of so many records, from 1 to 1,000,000, that the generator makes: the same at each call.
///
/// Each record adds an edge between two of a thousand nodes, in one of four layers in turn, up to 49 moments earlier
/// than its number says, with a value below 7 under the key `w`. It takes three draws, which are those of the example of
/// `rand` in the C standard, with the seed 1. The file is written into one buffer, of 31 bytes a record.
pub fn generated(alloc: Global, count: u32) -> Result<Vec<u8>, Memory>
    requires some { 1 ≤ count }
    requires most { count ≤ most_generated }
    ensures { IfOk result (λ file. file.items ≡ generated_file count) }
{
    let mut file = Vec::with_capacity(alloc, count as usize * MOST_RECORD_BYTES)?;
    let mut draws = Draws { number: 1 };
    for i in 0..count {
        let (p, q, r) = (draws.draw(), draws.draw(), draws.draw());
        add_record(&mut file, i, p, q, r)?;
    }
    Ok(file)
}

// The sequence of numbers, by the one that was reached.
#[derive(Drop)]
struct Draws {
    number: u32,
}

impl Draws {
    // The next draw.
    fn draw(&mut self) -> u32
        ensures reached { self.new.number ≡ number_after self.old.number }
        ensures value { result ≡ self.new.number / 65536 }
    {
        let next = u64::from(self.number) * 1_103_515_245 + 12_345;
        self.number = (next % (1 << 31)) as u32;
        self.number / 65_536
    }
}

// Adds a record by its number and its three draws.
fn add_record(file: &mut Vec<u8>, i: u32, p: u32, q: u32, r: u32) -> Result<(), Memory>
    ensures { OnOk result
        (file.new.items ≡ file.old.items ++ record_line (edge_fields i p q r)) }
{
    add_number(file, b"edge,", moment(i, r))?;
    add_number(file, b",n", p % NODES)?;
    add_number(file, b",n", q % NODES)?;
    add_number(file, b",l", i % LAYERS)?;
    add_number(file, b",w:i=", r % VALUES)?;
    file.push(b'\n')?;
    Ok(())
}

// When the edge of a record is added, by the record's number and its third draw.
fn moment(i: u32, r: u32) -> i64
    ensures { result ≡ pos i -ℤ pos (r % 50) }
{
    i64::from(i) - i64::from(r % MOMENTS)
}

// Adds what stands before a number, and its decimal text.
fn add_number<N: Integer>(file: &mut Vec<u8>, before: &[u8], number: N) -> Result<(), Memory>
    ensures { OnOk result
        (file.new.items ≡ file.old.items ++ (before.now ++ N.text number)) }
{
    file.extend_from_slice(before)?;
    file.extend_from_slice(Buffer::new().format(number).as_bytes())?;
    Ok(())
}
