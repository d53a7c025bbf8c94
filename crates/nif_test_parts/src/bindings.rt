//! Expressions by bindings.
use nif_base::{NoMemory, Word};
use nif_expr::{Env, eval, parse};
use nif_schema::Path;
use std::alloc::Global;
use std::test::Fail;

/// A path of one name, or of two.
pub(crate) fn make_path(
    alloc: Global,
    first: &[u8],
    second: Option<&[u8]>,
) -> Result<Path, NoMemory> {
    let mut path = Path::new(alloc, Word::from_bytes(alloc, first)?)?;
    if let Some(name) = second {
        if path.len() < 9 {
            path.push(Word::from_bytes(alloc, name)?)?;
        }
    }
    Ok(path)
}

/// Two values of `A B`, and one of `A\B`.
fn bind(alloc: Global, env: &mut Env) -> Result<(), NoMemory> {
    env.bind(make_path(alloc, b"A B", None)?, 4)?;
    env.bind(make_path(alloc, b"A", Some(b"B"))?, 9)?;
    env.bind(make_path(alloc, b"A B", None)?, 5)
}

#[test]
fn takes_the_last_binding(rt: HostRuntime) -> Result<(), Fail> {
    let mut env = Env::new(rt.alloc());
    bind(rt.alloc(), &mut env)?;
    for (text, want) in [
        ("A B + 1", 6),
        ("A \\ B", 9),
        ("A", 0),
        ("A  B", 0),
        ("A B\\A", 0),
    ] {
        let expr = parse(rt.alloc(), text.as_bytes())?;
        assert!(rt; eval(&expr, &env, 0) == want);
    }
    Ok(())
}
