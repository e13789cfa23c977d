//! A shelf of three objects, from the making to the end.

ghost use Rattle.std.specs.Prelude.{◌≡◌, [], List, All, IsSome, None, IfOk, length, vec_len};

use crate::{Aged, Shelf, SoloShelf};
use std::alloc::{AllocError, Global};
use std::test::Fail;

/// An object that is only its name.
#[derive(Debug, Drop, PartialEq, Eq)]
struct Token {
    name: u8,
}

impl Aged for Token {
    ghost told = { λ _. None };

    ghost rests = { λ _. Unit {0} };

    ghost frame = { λ _. [] };

    ghost legal = { λ _ _. Unit {0} };

    fn ends(&self) -> u64 {
        0
    }
}

fn three_tokens(alloc: Global) -> Result<Vec<Token>, AllocError>
    ensures { IfOk result (λ tokens. vec_len tokens ≡ 3) }
{
    let mut tokens = Vec::new(alloc);
    tokens.push(Token { name: 10 })?;
    tokens.push(Token { name: 11 })?;
    tokens.push(Token { name: 12 })?;
    Ok(tokens)
}

fn shelf_of_three(alloc: Global) -> Result<SoloShelf<Token>, AllocError>
    ensures { IfOk result (λ shelf. (length shelf ≡ 3) × All IsSome shelf) }
{
    let tokens = three_tokens(alloc)?;
    match SoloShelf::new(alloc, tokens) {
        Ok(shelf) => Ok(shelf),
        Err(_) => Err(AllocError),
    }
}

#[test]
fn an_object_is_with_one_holder(rt: HostRuntime) -> Result<(), Fail> {
    let mut shelf = shelf_of_three(rt.alloc())?;
    assert_eq!(rt; shelf.objects(), 3);
    let Ok(middle) = shelf.take(1) else {
        return Err(Fail::from("object 1 is home"));
    };
    assert_eq!(rt; middle.name, 11);
    assert!(rt; shelf.take(1).is_err());
    shelf.put(1, middle);
    assert!(rt; shelf.take(2).is_ok());
    assert!(rt; shelf.take(1).is_ok());
    Ok(())
}

#[test]
fn all_objects_come_back_in_order(rt: HostRuntime) -> Result<(), Fail> {
    let tokens = shelf_of_three(rt.alloc())?.finish();
    assert_eq!(rt; tokens.len(), 3);
    for (token, name) in tokens.iter().zip([10, 11, 12]) {
        assert_eq!(rt; token.name, name);
    }
    Ok(())
}
