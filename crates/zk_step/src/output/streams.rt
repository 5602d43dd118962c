// The output streams.

ghost use Rattle.std.specs.Prelude.{◌≡◌, ◌<◌, ◌≤◌, ◌+◌, ◌^◌, [], Bool, Ok, Err, Some, IfSome, MatchResult, length};
ghost use Rattle.zk_step.specs.Streams.{OutputStreams, first_streams, with_screen, opened, counted, newest_of, closed};

use arrayvec::ArrayVec;
use std::marker::Model;
use zk_mem::fault::Fault;

/// A table of output stream 3 that is open: its byte address, and how many codes were stored in it.
#[derive(Clone, Copy, Default, Drop)]
pub struct OpenTable {
    pub address: u16,
    pub count: u16,
}

/// The output streams (Z-Machine Standards Document 1.1, section 7.1): whether stream 1, the screen, is on, and
/// the tables of stream 3 that are open, 16 at most. Contracts see the tables with the newest first. Stream 2,
/// the transcript, is a flag in the story's header.
#[derive(Drop)]
pub struct Streams {
    screen: bool,
    newest: Option<OpenTable>,
    // those that it covers, newest first
    below: ArrayVec<OpenTable, 15>,
}

impl Model for Streams {
    ghost use Rattle.zk_step.specs.Streams.{OutputStreams, tables_of, NewestIsFirst};

    ghost Value = { OutputStreams };

    ghost view = { λ s. record { screen = s.screen; tables = tables_of s.newest s.below.items } };

    ghost invariant = { λ s. NewestIsFirst s.newest s.below.items };
}

impl Streams {
    /// The screen is on, and no table is open.
    pub fn new() -> Streams
        ensures { result ≡ first_streams }
    {
        Streams {
            screen: true,
            newest: None,
            below: ArrayVec::new(),
        }
    }

    /// Stream 1 is on or off, and these tables are open, the newest first.
    pub fn with_tables(screen: bool, tables: &[OpenTable]) -> Streams
        requires { length tables.now ≤ 16 }
        ensures { result ≡ record { screen = screen; tables = tables.now } }
    {
        let mut below = ArrayVec::new();
        if tables.is_empty() {
            return Streams {
                screen,
                newest: None,
                below,
            };
        }
        let _ = below.try_extend_from_slice(&tables[1..]);
        Streams {
            screen,
            newest: Some(tables[0]),
            below,
        }
    }

    /// The tables that are open, the newest first.
    pub fn tables(&self) -> ArrayVec<OpenTable, 16>
        ensures value { result.items ≡ self.now.tables }
        ensures few { length self.now.tables ≤ 16 }
    {
        let mut tables = ArrayVec::new();
        if let Some(newest) = self.newest {
            tables.push(newest);
            let _ = tables.try_extend_from_slice(self.below.as_slice());
        }
        tables
    }

    /// Whether stream 1 is on.
    pub fn screen(&self) -> bool
        ensures { result ≡ self.now.screen }
    {
        self.screen
    }

    /// Turns stream 1 on or off.
    pub fn set_screen(&mut self, on: bool)
        ensures { self.new ≡ with_screen on self.old }
    {
        self.screen = on;
    }

    /// The newest table that is open.
    #[tactic(auto, using(crate::proofs::OpenTables::newest_is))]
    pub fn newest(&self) -> Option<OpenTable>
        ensures { result ≡ newest_of self.now.tables }
    {
        self.newest
    }

    /// Opens a table, or answers `StreamDepth` where 16 are open.
    #[tactic(auto, unfolding(crate::specs::Streams::opened))]
    pub fn open(&mut self, address: u16) -> Result<(), Fault>
        ensures { MatchResult result (λ _. opened self.old address ≡ Ok self.new)
            (λ e. opened self.old address ≡ Err e) }
    {
        if let Some(covered) = self.newest {
            if self.below.is_full() {
                return Err(Fault::StreamDepth);
            }
            self.below.insert(0, covered);
        }
        self.newest = Some(OpenTable { address, count: 0 });
        Ok(())
    }

    /// Counts codes that were stored in the newest table.
    pub fn count(&mut self, codes: u16)
        requires { IfSome (newest_of self.old.tables) (λ t. t.count + codes < 2 ^ 16) }
        ensures { self.new ≡ record self.old { tables = counted codes self.old.tables } }
    {
        if let Some(table) = self.newest {
            self.newest = Some(OpenTable {
                address: table.address,
                count: table.count + codes,
            });
        }
    }

    /// Forgets all open tables.
    pub fn close_all(&mut self)
        ensures { self.new ≡ record self.old { tables = [] } }
    {
        self.newest = None;
        self.below.clear();
    }

    /// Forgets the newest table.
    pub fn close(&mut self)
        ensures { self.new ≡ closed self.old }
    {
        if self.below.is_empty() {
            self.newest = None;
        } else {
            self.newest = Some(self.below.remove(0));
        }
    }
}
