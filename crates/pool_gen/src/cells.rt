//! The inputs of a ring of cells that pass a token on.
ghost use Rattle.std.specs.Prelude.{◌≡◌, ◌≤◌, length, IfOk};
ghost use Rattle.pool_gen.specs.Ring.{ring_placement, ring_program, ring_schedule};

use crate::drawn::push_drawn;
use crate::pieces::{push_number, push_piece};
use rand_pcg::Lcg64Xsh32;
use run_types::List;
use std::alloc::{AllocError, Global};

// The program up to its first number of cells.
const BEFORE_COUNT: &[u8] = b"class Cell
var next : Cell
method link(c : Cell) begin next := c end
method token(n : Int) begin if n > 0 then next !! token(n - 1) else write n fi end
body answer(link); while true do answer(token) od end
class Main
var first, last, c : Cell
var i : Int
body first := new Cell; last := first; i := 1;
while i < ";

// The program between its two numbers of cells.
const BETWEEN_COUNTS: &[u8] = b" do c := new Cell; last ! link(c); last := c; i := i + 1 od;
last ! link(first);
first !! token(";

const AFTER_COUNTS: &[u8] = b") end\n";

const PLACEMENT: &[u8] = b"mesh 2 2\nobjects 512\nplace Cell spread\n";

/// The number of the generator's stream.
const STREAM: u64 = 1;

/// The number of drawn lines of a schedule.
const DRAWN: u32 = 2000;

/// The texts of the three inputs of a run.
#[derive(Drop)]
pub struct Texts {
    pub program: List<u8>,
    pub placement: List<u8>,
    pub schedule: List<u8>,
}

fn program(alloc: Global, k: u32) -> Result<List<u8>, AllocError>
    ensures { IfOk result (λ t. t ≡ ring_program k) }
{
    let mut text = List::make(alloc);
    push_piece(&mut text, BEFORE_COUNT)?;
    push_number(&mut text, k)?;
    push_piece(&mut text, BETWEEN_COUNTS)?;
    push_number(&mut text, k)?;
    push_piece(&mut text, AFTER_COUNTS)?;
    Ok(text)
}

fn placement(alloc: Global) -> Result<List<u8>, AllocError>
    ensures { IfOk result (λ t. t ≡ ring_placement) }
{
    let mut text = List::make(alloc);
    push_piece(&mut text, PLACEMENT)?;
    Ok(text)
}

fn schedule(alloc: Global, k: u32) -> Result<List<u8>, AllocError>
    ensures { IfOk result (λ t. t ≡ ring_schedule k) }
{
    let mut text = List::make(alloc);
    push_piece(&mut text, b"quantum 20\n")?;
    let mut generator = Lcg64Xsh32::new(k as u64, STREAM);
    push_drawn(&mut text, &mut generator, DRAWN)?;
    push_piece(&mut text, b"round 100000\n")?;
    Ok(text)
}

/// Makes the inputs of a ring of `k` cells, from 2 to 1000. Each text has at most 1,048,576 bytes. Returns `Err` if
/// memory runs out.
pub fn ring(alloc: Global, k: u32) -> Result<Texts, AllocError>
    requires { (2 ≤ k) × (k ≤ 1000) }
    ensures program { IfOk result (λ t. t.program ≡ ring_program k) }
    ensures placement { IfOk result (λ t. t.placement ≡ ring_placement) }
    ensures schedule { IfOk result (λ t. t.schedule ≡ ring_schedule k) }
    ensures short { IfOk result (λ t. (length t.program ≤ 1048576) × (length t.placement ≤ 1048576) × (length t.schedule ≤ 1048576)) }
{
    Ok(Texts {
        program: program(alloc, k)?,
        placement: placement(alloc)?,
        schedule: schedule(alloc, k)?,
    })
}
