//! A call of a layer on the shell's transaction of a core.

ghost use Rattle.std.specs.Prelude.{◌≡◌, IfOk};
ghost use Rattle.model_machine.specs.Worlds.{World};
ghost use Rattle.client_core.specs.Stands.{StandsFor};
ghost use Rattle.model_shell.specs.Requests.{name};
ghost use Rattle.model_shell.specs.Recipes.{recipe_done};
ghost use Rattle.shell_recipes.specs.Running.{HasRun};

use crate::calls::{End, make};
use client_core::Core;
use core_tr::CoreTr;
use key_bytes::Bytes;
use model_shell::Recipe;
use std::alloc::AllocError;

// Makes a call of a layer on a transaction of the shell's name.
fn call_on(tr: &mut CoreTr<'_>, recipe: &Recipe, text: &mut Bytes) -> Result<End, AllocError>
    requires { tr.old.name ≡ name }
    ensures done { (world : World) → StandsFor tr.old.core.now world
        → IfOk result (λ end. HasRun end tr.new.core.now text.old text.new world (recipe_done recipe.now world)) }
    ensures same_core { tr.new.core.ghost_name ≡ tr.old.core.ghost_name }
{
    tr.settle()?;
    let end = make(tr, recipe, text)?;
    if tr.is_spent {
        return Err(AllocError);
    }
    Ok(end)
}

/// Makes a call of a layer on the transaction of the shell's name in a core, and adds what is printed of it to a text. It is refused
/// for want of memory alone, and nothing is said of the core and the text then.
pub fn run(core: &mut Core, recipe: &Recipe, text: &mut Bytes) -> Result<End, AllocError>
    ensures { (world : World) → StandsFor core.old world
        → IfOk result (λ end. HasRun end core.new text.old text.new world (recipe_done recipe.now world)) }
{
    let mut tr = CoreTr {
        core,
        name: Bytes::new(text.allocator()),
        is_spent: false,
    };
    let end = call_on(&mut tr, recipe, text);
    let CoreTr {
        core: _core,
        name: _name,
        is_spent: _is_spent,
    } = tr;
    end
}
