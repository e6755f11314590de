//! Calls that take no memory.

use crate::copies;
use crate::told::{Made, Told};
use cedar_evaluator::request::IntoIter;
use cedar_evaluator::{Authorizer, ContextCalls, PartialResponse, RestrictedExpr};
use cedar_evaluator_requests::{Decision, Request};
use cedar_expr_functions::Extensions;
use cedar_expr_leaves::{Pattern, PatternElem};
use cedar_gate::{Gate, NestLimit};
use cedar_gate_bundles::{Bundle, Submission};
use cedar_store_entities::Entities;
use cedar_store_policies::{Policy, PolicySet};
use cedar_test_exprs::{expr, made};
use std::alloc::{AllocError, Global};
use std::rc::RcStr;

// What the calls are asked of beside a gate, a session and a request, all of it made before.
struct Asked {
    response: PartialResponse,
    pattern: Pattern,
    fields: IntoIter,
    exprs: Vec<RestrictedExpr>,
}

// A drop of its own is one step to the proof of a function that owns it.
impl Drop for Asked {
    fn drop(self) {
        let Asked {
            response: _,
            pattern: _,
            fields: _,
            exprs: _,
        } = self;
    }
}

/// Makes all that the calls are asked of, of a bundle whose request has a principal of an unknown uid and a known type, and a context of one
/// field; then asks for memory; and then makes the calls. Where the memory is refused, and none is to be had from there on, the calls answer
/// nevertheless.
pub fn make_calls(
    alloc: Global,
    bundle: Bundle,
    table: &Extensions<'_>,
    told: &mut Told,
) -> Made<()> {
    let Bundle {
        submission,
        request,
        store,
        steps,
    } = bundle;
    drop(steps);
    let Submission {
        fragments,
        policies,
        level,
        limit,
    } = submission;
    let response = left(alloc, table, limit, policies.as_slice(), &request, &store)?;
    let gate = made(Gate::accept(alloc, fragments.as_slice(), policies, table, level, limit))?;
    let session = made(gate.open(alloc, request.clone()?))?;
    let asked = prepared(alloc, &request, response)?;
    told.say("each call that takes no memory answers")?;
    told.say_again("without_memory")?;
    if RcStr::from_str(alloc, "memory").is_ok() {
        told.again.clear();
    }
    let others_answer = the_others_answer(asked) && session.wanted().len() == 1;
    if !(the_gate_answers(&gate) && the_request_answers(&request) && others_answer) {
        told.text.clear();
    }
    Ok(())
}

// What is left of the policies for the request.
fn left(
    alloc: Global,
    table: &Extensions<'_>,
    limit: NestLimit,
    policies: &[Policy],
    request: &Request,
    store: &Entities,
) -> Made<PartialResponse> {
    let copies = copies::policies(alloc, policies)?;
    let set = made(PolicySet::try_from_iter(alloc, copies))?;
    Authorizer::new(table, limit.levels()).is_authorized_core(alloc, request.clone()?, &set, store)
}

fn prepared(alloc: Global, request: &Request, response: PartialResponse) -> Made<Asked> {
    let context = request.context().ok_or(AllocError)?.clone()?;
    Ok(Asked {
        response,
        pattern: pattern(alloc)?,
        fields: context.into_iter(alloc)?,
        exprs: exprs(alloc)?,
    })
}

// The pattern `f`, two wildcards, `r`.
fn pattern(alloc: Global) -> Made<Pattern> {
    let (f, r) = (PatternElem::Char('f'), PatternElem::Char('r'));
    let elems = vec![in alloc; f, PatternElem::Wildcard, PatternElem::Wildcard, r]?;
    Pattern::new(alloc, elems)
}

// A truth value, a number, a text, a uid and an unknown.
fn exprs(alloc: Global) -> Made<Vec<RestrictedExpr>> {
    let mut exprs = Vec::new(alloc);
    for text in "true 1 \"a User::a $t".split(' ') {
        exprs.push(made(RestrictedExpr::new(alloc, expr(alloc, text)?))?)?;
    }
    Ok(exprs)
}

fn the_others_answer(mut asked: Asked) -> bool {
    asked.response.decision() == Some(Decision::Deny)
        && asked.pattern.wildcard_match("foo bar")
        && !asked.pattern.wildcard_match("foo")
        && asked.fields.next().is_some()
        && asked.fields.next().is_none()
        && the_expressions_answer(asked.exprs.as_slice())
}

// Whether each call of the gate answers as it should.
fn the_gate_answers(gate: &Gate<'_, '_, '_>) -> bool {
    NestLimit::new(512).is_some()
        && NestLimit::new(513).is_none()
        && gate.warnings().len() == 1
        && gate.schema().is_complete()
        && gate.level() == 1
}

fn the_request_answers(request: &Request) -> bool {
    request.principal().uid().is_none()
        && request.principal().get_type().is_some()
        && request.resource().uid().is_some()
        && match request.context() {
            Some(context) => context.num_keys() == 1,
            None => false,
        }
}

fn the_expressions_answer(exprs: &[RestrictedExpr]) -> bool {
    match exprs {
        [truth, number, text, uid, unknown] => {
            truth.as_bool() == Some(true)
                && number.as_long() == Some(1)
                && text.as_string().is_some()
                && uid.as_euid().is_some()
                && unknown.as_unknown().is_some()
                && truth.as_long().is_none()
        }
        _ => false,
    }
}
