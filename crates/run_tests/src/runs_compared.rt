// A glob and a named import bring functions to the name `g` of `a`, in two orders.
use crate::tree::{
    A_NAME, G, asked_in_the_root, by_glob, by_name, declares_a, hashers, hidden, is_function,
    tables,
};
use indexes::ledger_index::{FREE_LEDGER_ROW, LedgerIndex};
use indexes::table_index::{FREE_PLACE_ROW, TableIndex};
use item_scope::index::Recipient;
use path_resolution::path_resolution::resolve_path;
use path_text::mod_path::{ModPath, PathKind};
use runs::calls::Call;
use runs::compare::compare_runs;
use std::process::Abort;
use std::test::Fail;

// A glob comes first on the one, a named import on the other, which asks before `a` is declared.
fn in_two_orders<I: Recipient, J: Recipient>(
    rt: &impl Abort,
    first: &mut I,
    second: &mut J,
    path: &ModPath,
) {
    let question = asked_in_the_root();
    let ask = Call::Ask(question, path, None);
    let declared = Call::Deliver(declares_a(), None);
    let glob = Call::Deliver(by_glob(G, 7), None);
    let name = Call::Deliver(by_name(G, 8), None);
    let mut glob_first = [declared, glob, name, ask];
    let mut name_first = [name, glob, ask, declared];
    let told = compare_runs(
        first,
        glob_first.as_mut_slice(),
        second,
        name_first.as_mut_slice(),
        question,
        path,
        hidden(),
    );
    assert!(rt; told.first == told.second);
    assert!(rt; told.first.further == Ok(true));
    assert!(rt; told.first.after == told.first.before);
    assert!(rt;
        told.first
            .before
            .is_ok_and(|it| is_function(it.resolved_def, 8))
    );
    let pair = resolve_path(&*first, question, path);
    assert!(rt; pair.is_ok_and(|(entries, index)| is_function(entries, 8) && index.is_none()));
    // The glob changed the place where it came first.
    assert!(rt; matches!(&glob_first[1], Call::Deliver(_, Some(Ok(true)))));
    assert!(rt; matches!(&name_first[1], Call::Deliver(_, Some(Ok(false)))));
}

#[test]
fn a_table_and_a_ledger(rt: HostRuntime) -> Result<(), Fail> {
    let alloc = rt.alloc();
    let mut places = [FREE_PLACE_ROW; 3];
    let mut table = TableIndex::new(alloc, hashers(), places.as_mut_slice())?;
    assert!(rt; table.load(alloc, tables()).is_ok());
    let mut entries = [FREE_LEDGER_ROW; 4];
    let mut ledger = LedgerIndex::new(alloc, hashers(), entries.as_mut_slice())?;
    assert!(rt; ledger.load(alloc, tables()).is_ok());

    let path = ModPath {
        kind: PathKind::Crate,
        names: Vec::from_array(alloc, [A_NAME, G])?,
    };
    in_two_orders(&rt, &mut table, &mut ledger, &path);
    Ok(())
}
