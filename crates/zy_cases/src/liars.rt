//! The table `frames-of-liars`: the keys of a group of four replicas and four clients, and the frames that a party signs by its
//! own key, whatever it says.

ghost use Rattle.std.specs.Prelude.{◌≡◌, ◌≤◌, length, IfOk};
ghost use Rattle.zy_frames.specs.Frames.{IsFrameInRange};
ghost use Rattle.zy_lms.specs.declared.height.Height.TheVariants.{H5};
ghost use Rattle.zy_parts.specs.Signing.{IsSignedInRange};
ghost use Rattle.zy_parts.specs.Statements.{IsAskInRange};
ghost use Rattle.zy_world_setup.specs.Reading.{IsInRange};
ghost use Rattle.zy_world_setup.specs.Telling.{IsOrderable, IsTellable};

use crate::cases::Scene;
use crate::group_files::put_keys;
use crate::text::{PartyText, plain_text};
use crate::values::MaybeHex;
use crate::words::Row;
use std::alloc::Global;
use std::io;
use zy_base::{Bytes, ClientId, Counts, Items, Party, ReplicaId, Spoken, View};
use zy_frames::{Frame, decode, parts};
use zy_lms::Height;
use zy_ots::OtsType;
use zy_parts::{Ask, Signed};
use zy_rows::{Hex, lacking, not_a_line};
use zy_seal::{Directory, SealFault, Sealer, screen_parts};
use zy_table::AnyFrame;
use zy_world_setup::{
    Keyring, SaidTexts, Setup, Tellable, order_frame, read_frame, read_statement, request_in,
    sealer_at, spec_frame,
};

const PRIMARY: Party = Party::Replica(ReplicaId(0));

const CLIENT: Party = Party::Client(ClientId(0));

/// The keys of the group.
pub(crate) fn keyring(alloc: Global) -> io::Result<Keyring> {
    let setup = setup(alloc)?;
    Keyring::of(alloc, &setup).map_err(lacking)
}

impl Scene for Keyring {
    fn step(&mut self, alloc: Global, row: &Row) -> io::Result<String> {
        let directory = &self.directory;
        match row.call()? {
            "keys" => keys(alloc, self, row.text("parties")?),
            "statement" => statement(alloc, row.bytes("bytes")?),
            "short" => short(alloc, row.bytes("bytes")?),
            "frame" => frame(alloc, directory, row),
            "request" => request(alloc, row),
            "request-in" => request_text(alloc, row.bytes("bytes")?),
            "order" => order(alloc, row),
            "response" => response(alloc, row),
            "forger" => forger(alloc, directory, row),
            _ => Err(not_a_line()),
        }
    }
}

fn setup(alloc: Global) -> io::Result<Setup>
    ensures { IfOk result (λ setup. setup.height ≡ H5) }
{
    let counts = Counts::plain(1).ok_or_else(not_a_line)?;
    Ok(Setup {
        counts,
        interval: 8,
        clients: 4,
        liars: Vec::new(alloc),
        lying_clients: Vec::new(alloc),
        seed: [0; 32],
        height: Height::H5,
        ots: OtsType::W4,
    })
}

/// How many replicas and clients have keys, and the public keys of some parties.
fn keys(alloc: Global, keys: &Keyring, parties: &str) -> io::Result<String> {
    let mut text = format!(in alloc;
        "replicas {} clients {}",
        keys.replicas.len(),
        keys.clients.len()
    )?;
    put_keys(&mut text, &keys.directory, parties)?;
    Ok(text)
}

/// Whether bytes spell a statement that can be told.
fn statement(alloc: Global, bytes: &[u8]) -> io::Result<String> {
    match read_statement(alloc, bytes) {
        Ok(Some(_)) => Ok(String::from_str(alloc, "a statement")?),
        Ok(None) => Ok(String::from_str(alloc, "none")?),
        Err(want) => Err(lacking(want)),
    }
}

fn tellable(alloc: Global, bytes: &[u8]) -> io::Result<Tellable>
    ensures { IfOk result IsTellable }
{
    match read_statement(alloc, bytes) {
        Ok(Some(statement)) => Ok(statement),
        Ok(None) => Err(not_a_line()),
        Err(want) => Err(lacking(want)),
    }
}

/// Whether the frame of a statement is no longer than a frame may be.
fn short(alloc: Global, bytes: &[u8]) -> io::Result<String> {
    let setup = setup(alloc)?;
    let statement = tellable(alloc, bytes)?;
    let short = statement.is_short(alloc, &setup).map_err(lacking)?;
    plain_text(alloc, &short)
}

/// A party whose next signature has this number, of 1,024.
fn sealer(alloc: Global, party: Party, number: u32) -> io::Result<Sealer> {
    if number > 1024 {
        return Err(not_a_line());
    }
    let setup = setup(alloc)?;
    sealer_at(alloc, &setup, party, number).map_err(lacking)
}

/// A party signs a statement: whether each part of its frame verifies, and the number of the next signature.
fn frame(alloc: Global, directory: &Directory, row: &Row) -> io::Result<String> {
    let party = row.party("party")?;
    let number = row.number32("number")?;
    let statement = tellable(alloc, row.bytes("bytes")?)?;
    let mut sealer = sealer(alloc, party, number)?;
    match statement.frame(alloc, &mut sealer) {
        Ok(Some(frame)) => frame_text(alloc, directory, frame.as_slice(), sealer.next_leaf()),
        Err(SealFault::KeySpent) => spent_text(alloc, sealer.next_leaf()),
        Ok(None) | Err(SealFault::Want) => Err(not_a_line()),
    }
}

fn spent_text(alloc: Global, next: u32) -> io::Result<String> {
    Ok(format!(in alloc; "Err KeySpent next {next}")?)
}

fn frame_text(alloc: Global, directory: &Directory, frame: &[u8], next: u32) -> io::Result<String> {
    let verifies = verifies(alloc, directory, frame)?;
    Ok(format!(in alloc; "verifies {verifies} next {next}")?)
}

fn verifies(alloc: Global, directory: &Directory, bytes: &[u8]) -> io::Result<bool> {
    match decode(alloc, bytes) {
        Ok(frame) => parts_verify(alloc, directory, &frame),
        Err(_) => Err(not_a_line()),
    }
}

fn parts_verify(alloc: Global, directory: &Directory, frame: &Frame) -> io::Result<bool>
    requires { IsFrameInRange frame.now }
{
    let parts = parts(alloc, frame).map_err(lacking)?;
    Ok(screen_parts(directory, &parts).is_none())
}

/// The bytes of the frame in which a party tells a statement by its first signature.
fn told(alloc: Global, party: Party, statement: &[u8]) -> io::Result<Bytes> {
    let statement = tellable(alloc, statement)?;
    let mut sealer = sealer(alloc, party, 0)?;
    match statement.frame(alloc, &mut sealer) {
        Ok(Some(frame)) => Ok(frame),
        Ok(None) | Err(_) => Err(not_a_line()),
    }
}

/// The request in the frame in which a party tells a statement, if a client's is in it.
fn request(alloc: Global, row: &Row) -> io::Result<String> {
    let party = row.party("party")?;
    let frame = told(alloc, party, row.bytes("bytes")?)?;
    request_text(alloc, frame.as_slice())
}

fn request_text(alloc: Global, frame: &[u8]) -> io::Result<String> {
    match request_in(alloc, frame) {
        Ok(Some(ask)) => ask_text(alloc, &ask),
        Ok(None) => Ok(String::from_str(alloc, "none")?),
        Err(want) => Err(lacking(want)),
    }
}

fn ask_text(alloc: Global, ask: &Signed<Ask>) -> io::Result<String> {
    let by = PartyText(ask.by);
    Ok(format!(in alloc;
        "by {by} stamp {} op {}",
        ask.stmt.stamp.0,
        Hex(ask.stmt.op.as_slice())
    )?)
}

/// The request that client 0 tells by these bytes.
fn asked(alloc: Global, bytes: &[u8]) -> io::Result<Signed<Ask>>
    ensures { IfOk result (IsSignedInRange IsAskInRange) }
{
    let frame = told(alloc, CLIENT, bytes)?;
    match request_in(alloc, frame.as_slice()) {
        Ok(Some(ask)) => Ok(ask),
        Ok(None) | Err(_) => Err(not_a_line()),
    }
}

/// The order of the primary whose history is one request: the frame's length, the number of the next signature, and the head in it.
fn order(alloc: Global, row: &Row) -> io::Result<String> {
    let ask = asked(alloc, row.bytes("request")?)?;
    let mut liar = sealer(alloc, PRIMARY, 0)?;
    match order_frame(alloc, &mut liar, View(0), &[ask]) {
        Ok(frame) => order_text(alloc, frame.as_slice(), liar.next_leaf()),
        Err(_) => Err(not_a_line()),
    }
}

fn order_text(alloc: Global, frame: &[u8], next: u32) -> io::Result<String> {
    let head = MaybeHex(frame.get(23..55));
    Ok(format!(in alloc; "length {} next {next} head {head}", frame.len())?)
}

/// The response of the primary to one request: the number of the next signature, and the head and the reply's digest in the frame.
fn response(alloc: Global, row: &Row) -> io::Result<String> {
    let reply = row.bytes("reply")?;
    if reply.len() > 1100 {
        return Err(not_a_line());
    }
    let ask = asked(alloc, row.bytes("request")?)?;
    let mut liar = sealer(alloc, PRIMARY, 0)?;
    responded(alloc, &mut liar, &[ask], reply)
}

fn responded(
    alloc: Global,
    liar: &mut Sealer,
    asks: &[Signed<Ask>],
    reply: &[u8],
) -> io::Result<String>
    requires asks { IsOrderable (record { 0 = 0 }) asks.now }
    requires reply { length reply.now ≤ 1100 }
{
    let reply = Bytes::from_slice(alloc, reply).map_err(lacking)?;
    match spec_frame(alloc, liar, View(0), asks, reply) {
        Ok(frame) => response_text(alloc, frame.as_slice(), liar.next_leaf()),
        Err(_) => Err(not_a_line()),
    }
}

fn response_text(alloc: Global, frame: &[u8], next: u32) -> io::Result<String> {
    let head = MaybeHex(frame.get(23..55));
    let reply = MaybeHex(frame.get(55..87));
    Ok(format!(in alloc; "next {next} head {head} reply {reply}")?)
}

/// Who forged the frame in which client 0 tells a request, before and after it is known that the client `said` the signed text. The
/// client may be one that lies.
fn forger(alloc: Global, directory: &Directory, row: &Row) -> io::Result<String> {
    let said = row.bytes("said")?;
    let lying = row.text("lying")? == "c0";
    let bytes = told(alloc, CLIENT, row.bytes("request")?)?;
    match read_frame(alloc, bytes.as_slice()) {
        Ok(Some(frame)) => forgers(alloc, directory, &frame, said, lying),
        Ok(None) | Err(_) => Err(not_a_line()),
    }
}

fn forgers(
    alloc: Global,
    directory: &Directory,
    frame: &AnyFrame,
    said: &[u8],
    lying: bool,
) -> io::Result<String>
    requires { IsInRange frame.now }
{
    let mut texts = speakers(alloc, lying)?;
    let before = forger_text(&texts, directory, frame)?;
    say(alloc, &mut texts, said)?;
    let after = forger_text(&texts, directory, frame)?;
    Ok(format!(in alloc; "before {before} after {after}")?)
}

/// Four replicas and a client that said nothing yet.
fn speakers(alloc: Global, lying: bool) -> io::Result<SaidTexts> {
    let liars: &[ClientId] = if lying { &[ClientId(0)] } else { &[] };
    SaidTexts::start(alloc, 4, &[], 1, liars).map_err(lacking)
}

fn say(alloc: Global, texts: &mut SaidTexts, text: &[u8]) -> io::Result<()> {
    let text = Bytes::from_slice(alloc, text).map_err(lacking)?;
    let mut said = Items::new(alloc);
    let spoken = Spoken {
        text,
        stood: None,
        pairs: 0,
    };
    said.push(spoken).map_err(lacking)?;
    texts.add(CLIENT, said).map_err(lacking)
}

fn forger_text(
    texts: &SaidTexts,
    directory: &Directory,
    frame: &AnyFrame,
) -> io::Result<&'static str>
    requires { IsInRange frame.now }
{
    match texts.forger(directory, frame) {
        Ok(None) => Ok("nobody"),
        Ok(Some(party)) if party == CLIENT => Ok("c0"),
        Ok(Some(_)) => Ok("another"),
        Err(want) => Err(lacking(want)),
    }
}
