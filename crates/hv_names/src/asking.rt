ghost use Rattle.std.specs.Prelude.{◌≡◌};
ghost use Rattle.std.specs.List.{list_any};
ghost use Rattle.hv_locks.specs.Locking.{conflict};
ghost use Rattle.hv_locks.specs.declared.table.Lock.{Lock};
ghost use Rattle.hv_logic.specs.Names.{source_names, query_names, rows_names, show_names, names_in, names_in_maybe};

use hv_ast::{From, Query, Rows, Show, Source, Stmt};
use hv_base::Text;

/// A question about a lock on a table's name.
trait LockTest {
    ghost use Rattle.std.specs.Prelude.{◌≡◌, Bool};
    ghost use Rattle.hv_locks.specs.declared.table.Lock.{Lock};

    ghost test: { Self → Lock → Bool };

    fn holds(&self, name: &Text, exclusive: bool) -> bool
        ensures { result ≡ test self.now (record { name = name.now; exclusive = exclusive }) };
}

/// Whether the question holds of one of a source's names.
#[cycle(asking)]
fn any_in_source<T: LockTest>(source: &Source, test: &T) -> bool
    ensures { result ≡ list_any (T.test test.now) (source_names source.now) }
{
    match source {
        Source::Table(name, _) => test.holds(name, false),
        Source::Query(query, _) => {
            let inner = query.get();
            if any_in_maybe(&inner.select.from, test) {
                return true;
            }
            for union in inner.unions.as_slice() {
                if any_in_maybe(&union.select.from, test) {
                    return true;
                }
            }
            false
        }
    }
}

#[cycle(asking)]
fn any_in_maybe<T: LockTest>(from: &Option<From>, test: &T) -> bool
    ensures { result ≡ list_any (T.test test.now) (names_in_maybe source_names from.now) }
{
    match from {
        None => false,
        Some(from) => {
            if any_in_source(&from.source, test) {
                return true;
            }
            for join in from.joins.as_slice() {
                if any_in_source(&join.source, test) {
                    return true;
                }
            }
            false
        }
    }
}

fn any_in_query<T: LockTest>(query: &Query, test: &T) -> bool
    ensures { result ≡ list_any (T.test test.now) (query_names query.now) }
{
    if any_in_maybe(&query.select.from, test) {
        return true;
    }
    for union in query.unions.as_slice() {
        if any_in_maybe(&union.select.from, test) {
            return true;
        }
    }
    false
}

fn any_in_rows<T: LockTest>(rows: &Rows, test: &T) -> bool
    ensures { result ≡ list_any (T.test test.now) (rows_names rows.now) }
{
    match rows {
        Rows::Values(_) => false,
        Rows::Query(query) => any_in_query(query, test),
    }
}

fn any_in_show<T: LockTest>(show: &Show, test: &T) -> bool
    ensures { result ≡ list_any (T.test test.now) (show_names show.now) }
{
    match show {
        Show::Partitions(table) => test.holds(table, false),
        Show::Tables | Show::Transactions | Show::Locks | Show::Compactions => false,
    }
}

/// Whether the question holds of one of the names of a statement.
fn any_named<T: LockTest>(tree: &Stmt, test: &T) -> bool
    ensures { result ≡ list_any (T.test test.now) (names_in tree.now) }
{
    match tree {
        Stmt::Query(query) => any_in_query(query, test),
        Stmt::Insert(insert) => {
            test.holds(&insert.table, false) || any_in_rows(&insert.rows, test)
        }
        Stmt::Update(update) => test.holds(&update.table, false),
        Stmt::Delete(delete) => test.holds(&delete.table, false),
        Stmt::Merge(merge) => {
            test.holds(&merge.table, false) || any_in_source(&merge.source, test)
        }
        Stmt::CreateTable(create) => test.holds(&create.table, true),
        Stmt::DropTable(drop) => test.holds(&drop.table, true),
        Stmt::AddColumns(add) => test.holds(&add.table, true),
        Stmt::Truncate(truncate) => test.holds(&truncate.table, false),
        Stmt::Show(show) => any_in_show(show, test),
        Stmt::Describe(table) => test.holds(table, false),
        Stmt::Compact(compact) => test.holds(&compact.table, false),
        Stmt::AbortTransactions(_) | Stmt::Set(_) | Stmt::Transaction(_) => false,
        Stmt::Explain(query) => any_in_query(query, test),
        Stmt::CreateView(create) => {
            test.holds(&create.view, true) || any_in_query(&create.query, test)
        }
        Stmt::RebuildView(view) | Stmt::DropView(view) => test.holds(view, true),
    }
}

/// Whether a lock conflicts with this one.
#[derive(Drop)]
struct With<'a> {
    name: &'a Text,
    exclusive: bool,
}

impl LockTest for With<'_> {
    ghost use Rattle.hv_locks.specs.Locking.{conflict};

    ghost test = { λ with lock. conflict (record { name = with.name.now; exclusive = with.exclusive }) lock };

    fn holds(&self, name: &Text, exclusive: bool) -> bool {
        self.name == name && (self.exclusive || exclusive)
    }
}

/// Whether a lock conflicts with one of this statement's.
#[derive(Drop)]
struct Against<'a> {
    tree: &'a Stmt,
}

impl LockTest for Against<'_> {
    ghost use Rattle.hv_logic.specs.Names.{names_in};
    ghost use Rattle.std.specs.List.{list_any};
    ghost use Rattle.hv_locks.specs.Locking.{conflict};

    ghost test = { λ against lock. list_any (conflict lock) (names_in against.tree.now) };

    fn holds(&self, name: &Text, exclusive: bool) -> bool {
        any_named(self.tree, &With { name, exclusive })
    }
}

/// Whether the locks of two statements conflict. It takes no memory.
pub fn locks_conflict(tree: &Stmt, other: &Stmt) -> bool
    ensures { result
        ≡ list_any (λ (lock : Lock). list_any (conflict lock) (names_in other.now)) (names_in tree.now) }
{
    any_named(tree, &Against { tree: other })
}
