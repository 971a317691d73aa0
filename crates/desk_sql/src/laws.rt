//! What holds of every connection. It follows from the contracts of calls that read a connection, so the
//! function here makes these calls, ignores their results, and does nothing else.

ghost use Rattle.std.specs.Prelude.{◌≡◌, false, IsTrue};
ghost use Rattle.sqlite.specs.{State.IsLive, Held.state};

use sqlite::{Alter, Connection};

/// States two facts for the proof of its caller. Outside a transaction an open connection shows what was
/// committed. And what an open connection shows is a sound database: one that obeys its schema. It changes
/// nothing.
pub fn committed_and_sound<S: Alter>(connection: &Connection<S>)
    ensures settled { connection.now.in_transaction ≡ false → IsTrue (state S.Store connection.now).is_open
        → (state S.Store connection.now).now ≡ (state S.Store connection.now).committed }
    ensures sound { IsLive (state S.Store connection.now) }
{
    connection.is_autocommit();
    connection.schema();
}
