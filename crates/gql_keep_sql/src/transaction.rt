//! What is written, in one transaction.

ghost use Rattle.std.specs.Prelude.{◌≡◌, map, IsTrue, IfErr, OnOk, OnErr};
ghost use Rattle.sqlite.specs.Effect.{Database};
ghost use Rattle.sqlite.specs.State.{HasCleanDisk, KeepsCommit, Survives};
ghost use Rattle.sqlite.specs.Held.{state};
ghost use Rattle.gql_keep_sql.specs.Rests.{Rests};
ghost use Rattle.gql_keep_sql.specs.Transaction.{Step, put_step, drop_step, Ran, Refuses, RunsInside, Rewrote, FailsToRewrite};
ghost use Rattle.gql_keep_sql.specs.Refusals.{FailsOnlyBy};

use gql_ports::{Key, Record};
use sqlite::{Alter, Connection, Error, ErrorCode, Transaction, params};

const PUT: &str =
    "INSERT INTO record (key, value) VALUES (?1, ?2) ON CONFLICT (key) DO UPDATE SET value = excluded.value";

const DROP: &str = "DELETE FROM record WHERE key = ?1";

/// Puts and drops all of these, or changes nothing, also over a crash.
pub fn write<S: Alter>(
    conn: &mut Connection<S>,
    puts: &[Record],
    drops: &[Key],
) -> Result<(), Error>
    ensures all { HasCleanDisk (state S.Store conn.new) → OnOk result (Rewrote S.Store puts.now drops.now conn.old (state S.Store conn.new).committed) }
    ensures nothing { HasCleanDisk (state S.Store conn.new) → IsTrue (state S.Store conn.new).is_open → OnErr result ((state S.Store conn.new).committed ≡ (state S.Store conn.old).committed) }
    ensures refused { FailsOnlyBy result (FailsToRewrite S.Store puts.now drops.now conn.old conn.new) }
    ensures rests { Rests conn.old conn.new }
    ensures crash { Survives (state S.Store conn.old) (state S.Store conn.new) (λ trees. (db : Database) × Rewrote S.Store puts.now drops.now conn.old db × (trees ≡ db.trees)) }
{
    if !conn.is_autocommit() {
        return Err(Error::SqliteFailure(ErrorCode::TransactionState));
    }
    let mut transaction = conn.transaction();
    write_all(&mut transaction, puts)?;
    write_all(&mut transaction, drops)?;
    transaction.commit()?;
    Ok(())
}

/// What one statement writes: a record that is put, or a key that is dropped.
trait Written<S: Alter> {
    /// The statement, and what is bound to its parameters.
    ghost step: { Self → Step };

    /// Runs the statement.
    fn write(&self, transaction: &mut Transaction<'_, S>) -> Result<usize, Error>
        ensures same_reference { transaction.new.conn.ghost_name ≡ transaction.old.conn.ghost_name }
        ensures runs { RunsInside S.Store (step self.now) transaction.old.conn.now transaction.new.conn.now result }
        ensures survives { Survives (state S.Store transaction.old.conn.now) (state S.Store transaction.new.conn.now) (λ _. ⊥) };
}

impl<S: Alter> Written<S> for Record {
    ghost step = { put_step };

    fn write(&self, transaction: &mut Transaction<'_, S>) -> Result<usize, Error> {
        transaction.execute(PUT, params![self.key.as_slice(), self.value.as_slice()])
    }
}

impl<S: Alter> Written<S> for Key {
    ghost step = { drop_step };

    fn write(&self, transaction: &mut Transaction<'_, S>) -> Result<usize, Error> {
        transaction.execute(DROP, params![self.as_slice()])
    }
}

/// Runs the statements of all of these, one after the other.
fn write_all<S: Alter, W: Written<S>>(
    transaction: &mut Transaction<'_, S>,
    items: &[W],
) -> Result<(), Error>
    ensures same_reference { transaction.new.conn.ghost_name ≡ transaction.old.conn.ghost_name }
    ensures ran { HasCleanDisk (state S.Store transaction.new.conn.now) → IsTrue (state S.Store transaction.old.conn.now).in_transaction
        → OnOk result (Ran S.Store (map W.step items.now) transaction.old.conn.now transaction.new.conn.now × IsTrue (state S.Store transaction.new.conn.now).in_transaction) }
    ensures refused { HasCleanDisk (state S.Store transaction.new.conn.now) → IsTrue (state S.Store transaction.old.conn.now).in_transaction → IfErr result (Refuses S.Store (map W.step items.now) transaction.old.conn.now) }
    ensures kept { HasCleanDisk (state S.Store transaction.new.conn.now) → IsTrue (state S.Store transaction.old.conn.now).in_transaction
        → KeepsCommit (state S.Store transaction.old.conn.now) (state S.Store transaction.new.conn.now) }
    ensures survives { Survives (state S.Store transaction.old.conn.now) (state S.Store transaction.new.conn.now) (λ _. ⊥) }
{
    for item in items {
        item.write(transaction)?;
    }
    Ok(())
}
