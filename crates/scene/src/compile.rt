// Compiles a scene of a book into batch requests to an address, or into selective batch requests to the nodes of a set.
ghost use Rattle.std.specs.Prelude.{◌≡◌, IfErr};
ghost use Rattle.dpa.specs.Frame.{any_hwpid};
ghost use Rattle.book.specs.Steps.{steps_of};
ghost use Rattle.step.specs.Step.{first_bad_from};
ghost use Rattle.output.specs.Form.{requests_for};
ghost use Rattle.scene.specs.Call.{compile_steps, compile_scene, compile_for, compile_selected, compile_result};
ghost use Rattle.scene.specs.Answer.{compile_answer, NamesStep};

use batch::list::BATCH;
use batch::selective::SELECTIVE_BATCH;
use book::check::{BookFault, check_book};
use book::locations::scene_steps;
use book::step::Steps;
use dpa::frame::Frame;
use dpa::node_set::{NodeSet, node_set_ok};
use dpa::pnum;
use dpa::refusal::{self, Refusal};
use dpa::settings::address_ok;
use output::form::{GoodSteps, RequestForm, SizeLimits};
use output::request::write_output;
use step::fault::{BadStep, check_steps};

// The limits of a batch. Its list is the PData of its request.
const BATCH_LIMITS: SizeLimits = SizeLimits {
    entry: 50,
    list: Frame::PDATA_MAX,
};

// The limits of a selective batch, whose PData also has the node set.
const SELECTED_LIMITS: SizeLimits = SizeLimits {
    entry: 20,
    list: 26,
};

// Minimum size of the output buffer: every output fits.
pub const MIN_OUTPUT: usize = 4096;

// Why a scene is not compiled.
#[derive(Clone, Copy, Debug, PartialEq, Eq)]
pub enum CompileError {
    Refused(Refusal),
    // Its first bad step.
    Step(BadStep),
}

impl From<Refusal> for CompileError {
    ghost use Rattle.scene.specs.declared.compile.CompileError.TheVariants.{Refused};

    ghost from_gives = { λ refusal error. error ≡ Refused refusal };

    fn from(refusal: Refusal) -> Self {
        Self::Refused(refusal)
    }
}

impl From<BookFault> for CompileError {
    ghost use Rattle.dpa.specs.declared.refusal.Refusal.TheVariants.{Book};
    ghost use Rattle.scene.specs.declared.compile.CompileError.TheVariants.{Refused};

    ghost from_gives = { λ fault error. error ≡ Refused Book };

    fn from(_fault: BookFault) -> Self {
        Self::Refused(Refusal::Book)
    }
}

impl From<BadStep> for CompileError {
    ghost use Rattle.scene.specs.declared.compile.CompileError.TheVariants.{Step};

    ghost from_gives = { λ bad error. error ≡ Step bad };

    fn from(bad: BadStep) -> Self {
        Self::Step(bad)
    }
}

impl CompileError {
    ghost use Rattle.scene.specs.Answer.{refusal_in};

    pub fn refusal(self) -> Refusal
        ensures { result ≡ refusal_in self }
    {
        match self {
            CompileError::Refused(refusal) => refusal,
            CompileError::Step(bad) => bad.refusal,
        }
    }
}

// What C gets: numbers, with 0 where there is nothing to say. `step` is the number of the bad step with refusals 81 to 84. `length` is the
// size of the output.
#[repr(C)]
#[derive(Clone, Copy)]
pub struct CompileAnswer {
    pub refusal: u8,
    pub step: u8,
    pub length: usize,
}

impl From<Result<usize, CompileError>> for CompileAnswer {
    ghost from_gives = { λ outcome answer. answer ≡ compile_answer outcome };

    fn from(outcome: Result<usize, CompileError>) -> Self {
        match outcome {
            Ok(length) => CompileAnswer {
                refusal: refusal::NONE,
                step: 0,
                length,
            },
            Err(CompileError::Refused(refusal)) => CompileAnswer {
                refusal: u8::from(refusal),
                step: 0,
                length: 0,
            },
            Err(CompileError::Step(bad)) => CompileAnswer {
                refusal: u8::from(bad.refusal),
                step: bad.step,
                length: 0,
            },
        }
    }
}

// Compiles the steps of a scene. A bad step is refused before a buffer that is too small.
#[tactic(auto, using(step::proofs::GoodSteps::good_index))]
fn compile_steps(steps: Steps, form: RequestForm, out: &mut [u8]) -> Result<usize, CompileError>
    ensures answer { compile_result (compile_answer result) out.new
        ≡ compile_steps (first_bad_from 0 (steps_of steps.entry)) (requests_for form.entry (steps_of steps.entry)) out.old }
    ensures error { IfErr result NamesStep }
{
    check_steps(steps)?;
    if out.len() < MIN_OUTPUT {
        return Err(Refusal::Output.into());
    }
    Ok(write_output(GoodSteps { steps }, form, out))
}

// Compiles a scene into requests of this form.
#[tactic(auto, using(crate::proofs::Calls::no_book, crate::proofs::Calls::no_scene, book::proofs::Checks::sound_book, book::proofs::Books::book_facts))]
fn compile_scene(
    book: &[u8],
    scene: usize,
    form: RequestForm,
    out: &mut [u8],
) -> Result<usize, CompileError>
    ensures answer { compile_result (compile_answer result) out.new ≡ compile_scene book.now scene (requests_for form.entry) out.old }
    ensures error { IfErr result NamesStep }
{
    check_book(book)?;
    if usize::from(book[0]) <= scene {
        return Err(Refusal::Scene.into());
    }
    compile_steps(scene_steps(book, scene), form, out)
}

// Compiles a scene into batches for an address and a hardware profile. Book, scene and buffer come one by one, as C gives them
// (grelfint_compile).
#[tactic(auto, unfolding(crate::specs::Call::compile_to))]
pub fn compile(
    book: &[u8],
    scene: usize,
    address: u16,
    hwpid: u16,
    out: &mut [u8],
) -> Result<usize, CompileError>
    ensures answer { compile_result (compile_answer result) out.new ≡ compile_for book.now scene address hwpid out.old }
    ensures error { IfErr result NamesStep }
{
    if !address_ok(address) {
        return Err(Refusal::Node.into());
    }
    let form = RequestForm {
        limits: BATCH_LIMITS,
        header: Frame {
            nadr: address,
            pnum: pnum::OS,
            pcmd: BATCH,
            hwpid,
        },
        front: &[],
    };
    compile_scene(book, scene, form, out)
}

// Compiles for the hardware profile that every node accepts: a call of its own for C (`grelfint_compile_default`), which has no
// optional argument.
pub fn compile_default(
    book: &[u8],
    scene: usize,
    address: u16,
    out: &mut [u8],
) -> Result<usize, CompileError>
    ensures answer { compile_result (compile_answer result) out.new ≡ compile_for book.now scene address any_hwpid out.old }
    ensures error { IfErr result NamesStep }
{
    compile(book, scene, address, Frame::ANY_HWPID, out)
}

// Compiles a scene into selective batches for the nodes of a set and a hardware profile.
#[tactic(auto, unfolding(crate::specs::Call::compile_to))]
pub fn compile_selected(
    book: &[u8],
    scene: usize,
    nodes: NodeSet,
    hwpid: u16,
    out: &mut [u8],
) -> Result<usize, CompileError>
    ensures answer { compile_result (compile_answer result) out.new ≡ compile_selected book.now scene nodes.bits hwpid out.old }
    ensures error { IfErr result NamesStep }
{
    if !node_set_ok(nodes) {
        return Err(Refusal::Node.into());
    }
    let bits = nodes.bits;
    let form = RequestForm {
        limits: SELECTED_LIMITS,
        header: Frame {
            nadr: Frame::BROADCAST,
            pnum: pnum::OS,
            pcmd: SELECTIVE_BATCH,
            hwpid,
        },
        front: &bits,
    };
    compile_scene(book, scene, form, out)
}

// Compiles for the nodes of a set and the hardware profile that every node accepts, for C (`grelfint_compile_selected_default`).
pub fn compile_selected_default(
    book: &[u8],
    scene: usize,
    nodes: NodeSet,
    out: &mut [u8],
) -> Result<usize, CompileError>
    ensures answer { compile_result (compile_answer result) out.new ≡ compile_selected book.now scene nodes.bits any_hwpid out.old }
    ensures error { IfErr result NamesStep }
{
    compile_selected(book, scene, nodes, Frame::ANY_HWPID, out)
}
