// The scene compiler.
ghost use Rattle.std.specs.Prelude.{◌≡◌};
ghost use Rattle.dpa.specs.Frame.{any_hwpid};
ghost use Rattle.scene.specs.Call.{compile_for, compile_selected, compile_result};

use dpa::node_set::NodeSet;
use scene::compile::{
    CompileAnswer, compile, compile_default, compile_selected, compile_selected_default,
};

#[unsafe(no_mangle)]
pub extern "C" fn grelfint_compile(
    book: &[u8],
    scene: usize,
    address: u16,
    hwpid: u16,
    out: &mut [u8],
) -> CompileAnswer
    ensures { compile_result result out.new ≡ compile_for book.now scene address hwpid out.old }
{
    compile(book, scene, address, hwpid, out).into()
}

#[unsafe(no_mangle)]
pub extern "C" fn grelfint_compile_default(
    book: &[u8],
    scene: usize,
    address: u16,
    out: &mut [u8],
) -> CompileAnswer
    ensures { compile_result result out.new ≡ compile_for book.now scene address any_hwpid out.old }
{
    compile_default(book, scene, address, out).into()
}

#[unsafe(no_mangle)]
pub extern "C" fn grelfint_compile_selected(
    book: &[u8],
    scene: usize,
    nodes: NodeSet,
    hwpid: u16,
    out: &mut [u8],
) -> CompileAnswer
    ensures { compile_result result out.new ≡ compile_selected book.now scene nodes.bits hwpid out.old }
{
    compile_selected(book, scene, nodes, hwpid, out).into()
}

#[unsafe(no_mangle)]
pub extern "C" fn grelfint_compile_selected_default(
    book: &[u8],
    scene: usize,
    nodes: NodeSet,
    out: &mut [u8],
) -> CompileAnswer
    ensures { compile_result result out.new ≡ compile_selected book.now scene nodes.bits any_hwpid out.old }
{
    compile_selected_default(book, scene, nodes, out).into()
}
