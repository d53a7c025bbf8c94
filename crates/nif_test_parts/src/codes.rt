//! Expressions as they stand, and as code words over slots.
use crate::bindings::make_path;
use nif_base::NoMemory;
use nif_expr::{Env, compile, eval, parse, run};
use nif_schema::Path;
use std::alloc::Global;
use std::test::Fail;

/// The paths that have slots: `A`, `A\B`, and `A` again, which counts.
fn list_paths(alloc: Global) -> Result<Vec<Path>, NoMemory> {
    let mut paths = Vec::new(alloc);
    for second in [None, Some(b"B".as_slice()), None] {
        let path = make_path(alloc, b"A", second)?;
        paths.push(path).map_err(|_| NoMemory)?;
    }
    Ok(paths)
}

/// The same paths with their values 1, 9 and 5.
fn bind_paths(alloc: Global, env: &mut Env) -> Result<(), NoMemory> {
    env.bind(make_path(alloc, b"A", None)?, 1)?;
    env.bind(make_path(alloc, b"A", Some(b"B"))?, 9)?;
    env.bind(make_path(alloc, b"A", None)?, 5)
}

/// The value of a text's expression both ways, where the argument is 7.
fn values(alloc: Global, text: &str, env: &Env, paths: &[Path]) -> Result<(u64, u64), Fail> {
    let expr = parse(alloc, text.as_bytes())?;
    let code = compile(alloc, &expr, paths)?;
    Ok((eval(&expr, env, 7), run(&code, &[1, 9, 5], 7)))
}

/// What a text's code words give whatever is in the slots.
fn constant(alloc: Global, text: &str, paths: &[Path]) -> Result<Option<u64>, Fail> {
    let expr = parse(alloc, text.as_bytes())?;
    Ok(compile(alloc, &expr, paths)?.constant())
}

/// Here `A` is 5, `A\B` is 9, and `C` has no slot.
#[test]
fn runs_code_words(rt: HostRuntime) -> Result<(), Fail> {
    let mut env = Env::new(rt.alloc());
    bind_paths(rt.alloc(), &mut env)?;
    let paths = list_paths(rt.alloc())?;
    for (text, want) in [
        ("42", 42),
        ("#ARG#", 7),
        ("A", 5),
        ("A\\B", 9),
        ("C", 0),
        ("!A", 0),
        ("!C", 1),
        ("A * 3", 15),
        ("17 / A", 3),
        ("A / C", 0),
        ("A + ARG", 12),
        ("3 - A", 18446744073709551614),
        ("3 << A", 96),
        ("1 << 64", 0),
        ("96 >> A", 3),
        ("A < ARG", 1),
        ("ARG <= A", 0),
        ("A > ARG", 0),
        ("ARG >= A", 1),
        ("A == 5", 1),
        ("A != 5", 0),
        ("A & 3", 1),
        ("A | 3", 7),
        ("A && C", 0),
        ("A || C", 1),
        ("20 - A * 3", 5),
        ("20 / (A - 1)", 5),
        ("1 << (A - 2)", 8),
        ("(A - 2) << 1", 6),
        ("(A + 1) * (ARG - 3)", 24),
        ("9 - (7 - (6 - A))", 3),
        ("!(A == 5 && A\\B > 8) + 1", 1),
    ] {
        assert!(rt; values(rt.alloc(), text, &env, paths.as_slice())? == (want, want));
    }
    assert!(rt; constant(rt.alloc(), "C + 2 * 3", paths.as_slice())? == Some(6));
    assert!(rt; constant(rt.alloc(), "0 && A", paths.as_slice())? == None);
    Ok(())
}
