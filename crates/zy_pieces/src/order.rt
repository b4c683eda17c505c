ghost use Rattle.std.specs.Prelude.{ℕ, ◌<◌, ◌≤◌, List, length, Contains};
ghost use Rattle.zy_pieces.specs.Gathering.{Gathering, answers};
ghost use Rattle.zy_pieces.specs.Order.{AreAllThere, Brings};
ghost use Rattle.zy_pieces.specs.Pieces.{count_of, datagram_of, piece_at};
ghost use Rattle.zy_pieces.specs.declared.gather.Gathered.TheVariants.{Whole};
ghost use Rattle.zy_wire.specs.Kind.{frame_limit};

/// The pieces of one frame give it back in any order, as soon as all have come; and each datagram of a frame is read as
/// the piece that it was made of.
pub fn any_order()
    ensures whole { (frame : List ℕ) (gs : List Gathering) (datagrams : List (List ℕ)) → AreAllThere frame gs datagrams → Contains (answers gs datagrams) (Whole frame) }
    ensures again { (frame : List ℕ) (i : ℕ) → 1 ≤ length frame → length frame ≤ frame_limit → i < count_of frame → Brings frame i (datagram_of (piece_at frame i)) }
{}
