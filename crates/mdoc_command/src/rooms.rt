// The memory that texts are turned in.
ghost use Rattle.std.specs.Prelude.{◌≡◌, ◌≤◌, length};
ghost use Rattle.mdoc_command.specs.Converting.{ending_of};

use super::telling::{Complaint, room_for};
use super::watched::Watched;
use super::watching::Watch;
use filters::{BUFFER_SIZE, Ending, Turns};
use filters_complaints::{MOST_COMPLAINTS, MOST_OPEN, OpenBlock, tell_complaints};
use mdoc_converter::{Block, RunEnd, convert};
use nr_units::buffered::Buffered;
use nr_units::sink::Sink;
use std::alloc::{AllocError, Global};
use std::io::Read;

/// The bytes of the buffer for what goes out.
const PENDING_SIZE: usize = 81_920;

/// The room for lists and displays that are open.
const MOST_BLOCKS: usize = 64;

/// The memory that texts are turned in, taken once.
#[derive(Drop)]
pub struct Rooms {
    /// What was read of a text and is not taken yet.
    input: Vec<u8>,
    /// What is to go out.
    pending: Vec<u8>,
    /// The open blocks.
    blocks: Vec<Block>,
    /// Those of a text that are watched.
    open: Vec<OpenBlock>,
    /// What is wrong with it.
    complaints: Vec<Complaint>,
    ghost for_pages: { 73984 ≤ length pending.items },
    ghost for_blocks: { 64 ≤ length blocks.items },
}

impl Rooms {
    /// Takes it.
    pub fn new(alloc: Global) -> Result<Rooms, AllocError> {
        Ok(Rooms {
            input: vec![in alloc; 0u8; BUFFER_SIZE]?,
            pending: vec![in alloc; 0u8; PENDING_SIZE]?,
            blocks: vec![in alloc; Block::NONE; MOST_BLOCKS]?,
            open: vec![in alloc; OpenBlock::none(); MOST_OPEN]?,
            complaints: room_for(MOST_COMPLAINTS, alloc)?,
        })
    }
}

impl Turns for Rooms {
    ghost use Rattle.mdoc_command.specs.Converting.{mdoc};

    ghost filter = { λ rooms. mdoc };

    fn turn<'a, T: Read + Drop, W: Sink, E: Sink>(
        &mut self,
        name: &'a str,
        text: T,
        output: W,
        errors: &mut E,
    ) -> (Ending<'a>, W) {
        let source = Buffered::over(text, &mut self.input);
        let page = Watch::over(&mut self.open, &mut self.complaints);
        let mut watched = Watched::over(source, page);
        let mut output = output;
        let mut steps = 0;
        let outcome = convert(
            &mut watched,
            &mut output,
            &mut self.blocks,
            &mut self.pending,
            &mut steps,
        );
        tell_complaints("mdoc", name, watched.reported(), errors);
        let wrong = watched.reported().are_some();
        (ended(outcome, wrong), output)
    }
}

/// How a text ended, in which something was wrong or not.
fn ended<'a>(outcome: RunEnd, wrong: bool) -> Ending<'a>
    ensures { result ≡ ending_of wrong outcome }
{
    match outcome {
        RunEnd::Done if wrong => Ending::Complained,
        RunEnd::Done => Ending::Done,
        RunEnd::TooLong => Ending::TooLong(None),
        RunEnd::ReadFault { at } => Ending::ReadFault(None, at),
        RunEnd::WriteFault => Ending::WriteFault,
    }
}
