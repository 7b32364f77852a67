//! The packets in the pipes, as a queue.

ghost use Rattle.std.specs.Prelude.{◌≡◌, ◌<◌, ◌≤◌, ◌==◌, ◌++◌, ◌↔◌, ◌∷◌, [], not, filter, IsTrue, IfOk, OnOk};
ghost use Rattle.std.specs.List.{All};
ghost use Rattle.am_kernel.specs.Rising.{RiseByToken};
ghost use Rattle.am_kernel.specs.Requests.{queued_of};
ghost use Rattle.am_kernel.specs.Catatonic.{is_packet_of};

use am_names::{FsId, Token};
use am_ordered::Rows;
use am_state::QueuedRow;
use am_wire::Packet;
use std::alloc::{AllocError, Global};
use std::marker::Model;

/// The packets in the pipes, in order. Tokens are given in that order, so that the rows rise by
/// token, and one is found by halves. Those that came first mostly go first, at no cost.
#[derive(Drop)]
pub struct PacketQueue {
    rows: Rows<QueuedRow>,
}

impl Model for PacketQueue {
    ghost use Rattle.am_ordered.specs.RowTable.{RowTable};
    ghost use Rattle.am_state.specs.{QueuedRow};

    ghost Value = { RowTable QueuedRow };

    ghost use Rattle.am_kernel.specs.Rising.{RiseByToken};

    ghost view = { λ q. q.rows };

    ghost invariant = { λ q. RiseByToken q.rows.rows };
}

/// The packet of the token.
fn row_of(rows: &[QueuedRow], token: Token) -> Option<QueuedRow>
    requires { RiseByToken rows.now }
    ensures { result ≡ queued_of rows.now token }
{
    let number = token.0;
    match rows.binary_search_by_key(&number, |row| row.token.0) {
        Ok(at) => Some(rows[at]),
        Err(_) => None,
    }
}

/// The packet of the token goes.
fn take_row(rows: &mut Rows<QueuedRow>, token: Token)
    requires { RiseByToken rows.old.rows }
    ensures { rows.new.rows ≡ filter (λ row. not (row.token == token)) rows.old.rows }
{
    let number = token.0;
    if let Ok(at) = rows
        .as_slice()
        .binary_search_by_key(&number, |row| row.token.0)
    {
        rows.take_out(at);
    }
}

/// Whether both are the same packet.
fn is_same_packet(packet: &Packet, other: &Packet) -> bool
    ensures { IsTrue result ↔ (packet.now ≡ other.now) }
{
    packet.kind == other.kind
        && packet.token == other.token
        && packet.dev == other.dev
        && packet.ino == other.ino
        && packet.uid == other.uid
        && packet.gid == other.gid
        && packet.pid == other.pid
        && packet.tgid == other.tgid
        && packet.name.as_bytes() == other.name.as_bytes()
}

/// Whether both are the same packet in the same pipe.
fn is_same_row(row: &QueuedRow, other: &QueuedRow) -> bool
    ensures { IsTrue result ↔ (row.now ≡ other.now) }
{
    row.token == other.token
        && row.attach == other.attach
        && is_same_packet(&row.packet, &other.packet)
}

/// Whether these are the same packets in the same order.
fn are_same(rows: &[QueuedRow], others: &[QueuedRow]) -> bool
    ensures { IsTrue result ↔ (rows.now ≡ others.now) }
{
    rows.len() == others.len()
        && rows
            .iter()
            .zip(others)
            .all(|(row, other)| is_same_row(row, other))
}

impl PacketQueue {
    /// No packet.
    pub fn new(alloc: Global) -> PacketQueue
        ensures { result.rows ≡ [] }
    {
        PacketQueue {
            rows: Rows::new(alloc),
        }
    }

    /// The same packets once more, with no less room.
    pub fn copy(&self, alloc: Global) -> Result<PacketQueue, AllocError>
        ensures rows { IfOk result (λ copy. copy.rows ≡ self.now.rows) }
        ensures room { IfOk result (λ copy. self.now.room ≤ copy.room) }
    {
        Ok(PacketQueue {
            rows: self.rows.copy(alloc)?,
        })
    }

    /// Whether both have the same packets in the same order.
    pub fn is_same(&self, other: &PacketQueue) -> bool
        ensures { IsTrue result ↔ (self.now.rows ≡ other.now.rows) }
    {
        are_same(self.as_slice(), other.as_slice())
    }

    /// The packets, in order.
    pub fn as_slice(&self) -> &[QueuedRow]
        ensures { result.now ≡ self.now.rows }
    {
        self.rows.as_slice()
    }

    /// The packet of the token.
    pub fn get(&self, token: Token) -> Option<QueuedRow>
        ensures { result ≡ queued_of self.now.rows token }
    {
        row_of(self.rows.as_slice(), token)
    }

    /// Makes room for one more packet.
    pub fn reserve(&mut self) -> Result<(), AllocError>
        ensures rows { self.new.rows ≡ self.old.rows }
        ensures room { OnOk result (1 ≤ self.new.room) }
    {
        self.rows.reserve(1)
    }

    /// The packet of a token that is above all that are there.
    pub fn push_reserved(&mut self, row: QueuedRow)
        requires room { 1 ≤ self.old.room }
        requires above { All (λ (other : QueuedRow). other.token < row.token) self.old.rows }
        ensures { self.new.rows ≡ self.old.rows ++ row ∷ [] }
    {
        self.rows.push_reserved(row);
    }

    /// The packet of the token goes.
    pub fn take(&mut self, token: Token)
        ensures { self.new.rows ≡ filter (λ row. not (row.token == token)) self.old.rows }
    {
        take_row(&mut self.rows, token);
    }

    /// The packets of the file system go.
    pub fn take_fs(&mut self, fs: FsId)
        ensures { self.new.rows ≡ filter (λ row. not (is_packet_of fs row)) self.old.rows }
    {
        self.rows.retain(|row| row.packet.dev != fs);
    }
}
