// Expressions and runs of them: one cycle of calls, in which the depth that is left falls.
use super::fields::{Holder, Left};
use ir::args::is_prvalue_ref;
use ir::expr::ExprKind;
use steps::tags::typed;

// The most items of a run, where no rule limits them: as many as a unit may have bytes.
pub(crate) const ITEMS: usize = 1048576;

// The parameters of a function that is called: where their marks begin, and how many they are.
#[derive(Clone, Copy, Debug, PartialEq, Eq)]
struct Params {
    marks: usize,
    count: usize,
}

impl Holder<'_> {
    ghost use Rattle.std.specs.Prelude.{◌≡◌, ◌+◌, ◌≤◌, ◌<◌, length, get_or, IfSome};
    ghost use Rattle.ir.specs.Kinds.{expr_code};
    ghost use Rattle.scan.specs.Scanned.{ExprAt, BodyAt, RunAt, ArgsAt, CallAt, BeforeArg};

    // An expression. Every kind emits a record at least, which is paid here.
    #[tactic(auto, using(std::proofs::lemmas::Option::IfSome_then, crate::proofs::ExprLaws::expr_found))]
    #[cycle(exprs)]
    pub(crate) fn expr(&self, at: usize, depth: usize, left: &mut Left) -> Option<usize>
        requires { at ≤ self.now.end }
        ensures { IfSome result (λ r. ExprAt depth self.now.unit.now self.now.end at r left.old left.new) }
    {
        let node = Holder {
            unit: self.unit,
            end: self.node(at, depth)?,
        };
        left.pay_records(1)?;
        let Ok(kind) = ExprKind::try_from(self.unit[at + 4]) else {
            return None;
        };
        let last = node.expr_kind(kind, at, depth - 1, left)?;
        node.close(last)
    }

    // What the expression's kind asks, of this node, with depth for the nodes in it.
    #[tactic(auto, using(std::proofs::lemmas::Option::IfSome_then, ir::proofs::KindLaws::expr_is, crate::proofs::ExprLaws::nop_found, crate::proofs::ExprLaws::const_found, crate::proofs::ExprLaws::null_found, crate::proofs::ExprLaws::new_found, crate::proofs::ExprLaws::local_found, crate::proofs::ExprLaws::assign_found, crate::proofs::ExprLaws::index_found, crate::proofs::ExprLaws::cast_found))]
    #[cycle(exprs)]
    fn expr_kind(&self, kind: ExprKind, at: usize, depth: usize, left: &mut Left) -> Option<usize>
        requires { (at + 5 ≤ self.now.end) × (expr_code kind ≡ get_or self.now.unit.now (at + 4) 0) }
        ensures { IfSome result (λ r. BodyAt depth self.now.unit.now self.now.end at r left.old left.new) }
    {
        let body = at + 5;
        match kind {
            ExprKind::Nop => Some(body),
            ExprKind::Const => self.constant(body),
            ExprKind::Null => self.fields(body, 1, 0, 2),
            ExprKind::NewInstance => self.skip(body, 4),
            ExprKind::Local => self.fields(body, 5, 0, 4),
            ExprKind::Assign => {
                let place = self.expr(body, depth, left)?;
                self.expr(place, depth, left)
            }
            ExprKind::Index => {
                let typ = self.fields(body, 5, 0, 2)?;
                let array = self.expr(typ, depth, left)?;
                self.expr(array, depth, left)
            }
            ExprKind::DynCast => {
                let weak = self.fields(body, 5, 4, 2)?;
                self.expr(weak, depth, left)
            }
            _ => self.late_kind(kind, at, depth, left),
        }
    }

    // The kinds that make labels or hold a run.
    #[tactic(auto, using(std::proofs::lemmas::Option::IfSome_then, ir::proofs::KindLaws::expr_is, crate::proofs::ExprLaws::conditional_found, crate::proofs::ExprLaws::free_found, crate::proofs::ExprLaws::static_found))]
    #[cycle(exprs)]
    fn late_kind(&self, kind: ExprKind, at: usize, depth: usize, left: &mut Left) -> Option<usize>
        requires { (at + 5 ≤ self.now.end) × (expr_code kind ≡ get_or self.now.unit.now (at + 4) 0) }
        ensures { IfSome result (λ r. BodyAt depth self.now.unit.now self.now.end at r left.old left.new) }
    {
        let body = at + 5;
        match kind {
            ExprKind::Field => self.field(at, depth, left),
            ExprKind::Conditional => {
                left.pay_labels(2)?;
                let test = self.expr(body, depth, left)?;
                let then = self.expr(test, depth, left)?;
                self.expr(then, depth, left)
            }
            ExprKind::Construct => self.construct(at, depth, left),
            ExprKind::IntrinsicCall => self.intrinsic_call(at, depth, left),
            ExprKind::FreeCall => self.call(body, depth, left),
            ExprKind::StaticCall => {
                left.pay_labels(1)?;
                self.call(body, depth, left)
            }
            ExprKind::InstanceCall => self.instance_call(at, depth, left),
            ExprKind::ClosureCall => self.closure_call(at, depth, left),
            ExprKind::Nop
            | ExprKind::Const
            | ExprKind::Null
            | ExprKind::NewInstance
            | ExprKind::Local
            | ExprKind::Assign
            | ExprKind::Index
            | ExprKind::DynCast => None,
        }
    }

    // Field: behind a Context, one record more, one for a weak reference, and a label.
    #[tactic(auto, using(std::proofs::lemmas::Option::IfSome_then, crate::proofs::ExprLaws::field_found))]
    #[cycle(exprs)]
    fn field(&self, at: usize, depth: usize, left: &mut Left) -> Option<usize>
        requires { (at + 5 ≤ self.now.end) × (get_or self.now.unit.now (at + 4) 0 ≡ 7) }
        ensures { IfSome result (λ r. BodyAt depth self.now.unit.now self.now.end at r left.old left.new) }
    {
        let object = self.fields(at + 5, 5, 0, 3)?;
        let form = usize::from(self.unit[at + 5]);
        left.pay(form, form.min(1))?;
        self.expr(object, depth, left)
    }

    // Construct, with fewer than 256 arguments.
    #[tactic(auto, using(std::proofs::lemmas::Option::IfSome_then, crate::proofs::ExprLaws::construct_found))]
    #[cycle(exprs)]
    fn construct(&self, at: usize, depth: usize, left: &mut Left) -> Option<usize>
        requires { (at + 5 ≤ self.now.end) × (get_or self.now.unit.now (at + 4) 0 ≡ 5) }
        ensures { IfSome result (λ r. BodyAt depth self.now.unit.now self.now.end at r left.old left.new) }
    {
        let args = self.skip(at + 5, 4)?;
        let mut items = 255;
        self.run(args, depth, &mut items, left)
    }

    // An intrinsic call, without short-circuit mark and with the types that it needs.
    #[tactic(auto, using(std::proofs::lemmas::Option::IfSome_then, crate::proofs::ExprLaws::intrinsic_found))]
    #[cycle(exprs)]
    fn intrinsic_call(&self, at: usize, depth: usize, left: &mut Left) -> Option<usize>
        requires { (at + 5 ≤ self.now.end) × (get_or self.now.unit.now (at + 4) 0 ≡ 12) }
        ensures { IfSome result (λ r. BodyAt depth self.now.unit.now self.now.end at r left.old left.new) }
    {
        let args = self.fields(at + 5, 7, 0, 34)?;
        if !typed(
            usize::from(self.unit[at + 5]),
            usize::from(self.unit[at + 6]),
            usize::from(self.unit[at + 7]),
        ) {
            return None;
        }
        let mut items = ITEMS;
        self.run(args, depth, &mut items, left)
    }

    // An instance call: a Context, one record more for a weak reference, the object and the call.
    #[tactic(auto, using(std::proofs::lemmas::Option::IfSome_then, crate::proofs::ExprLaws::instance_found))]
    #[cycle(exprs)]
    fn instance_call(&self, at: usize, depth: usize, left: &mut Left) -> Option<usize>
        requires { (at + 5 ≤ self.now.end) × (get_or self.now.unit.now (at + 4) 0 ≡ 15) }
        ensures { IfSome result (λ r. BodyAt depth self.now.unit.now self.now.end at r left.old left.new) }
    {
        let object = self.fields(at + 5, 1, 0, 2)?;
        left.pay(1 + usize::from(self.unit[at + 5]), 1)?;
        let function = self.expr(object, depth, left)?;
        self.call(function, depth, left)
    }

    // A closure call: a Context, the closure, the invoke, the arguments, ParamEnd.
    #[tactic(auto, using(std::proofs::lemmas::Option::IfSome_then, crate::proofs::ExprLaws::closure_found))]
    #[cycle(exprs)]
    fn closure_call(&self, at: usize, depth: usize, left: &mut Left) -> Option<usize>
        requires { (at + 5 ≤ self.now.end) × (get_or self.now.unit.now (at + 4) 0 ≡ 16) }
        ensures { IfSome result (λ r. BodyAt depth self.now.unit.now self.now.end at r left.old left.new) }
    {
        left.pay(2, 2)?;
        let name = self.expr(at + 5, depth, left)?;
        let args = self.skip(name, 6)?;
        let mut items = ITEMS;
        self.run(args, depth, &mut items, left)
    }

    // A run of expressions, no more than `items`, of which it takes their number: one number is the limit of Construct and the count of
    // InitArray.
    #[tactic(auto, using(crate::proofs::RunLaws::run_start, crate::proofs::RunLaws::run_more, crate::proofs::RunLaws::run_end))]
    #[cycle(exprs)]
    pub(crate) fn run(
        &self,
        at: usize,
        depth: usize,
        items: &mut usize,
        left: &mut Left,
    ) -> Option<usize>
        requires { at ≤ self.now.end }
        ensures { IfSome result (λ r. RunAt depth self.now.unit.now self.now.end at r items.old items.new left.old left.new) }
    {
        let run = Holder {
            unit: self.unit,
            end: self.span(at)?,
        };
        let mut next = at + 4;
        while next < run.end {
            *items = items.checked_sub(1)?;
            next = run.expr(next, depth, left)?;
        }
        Some(run.end)
    }

    // A function, whose fields begin at `at`, and its arguments, which end where this node ends.
    #[cycle(exprs)]
    fn call(&self, at: usize, depth: usize, left: &mut Left) -> Option<usize>
        requires { at ≤ self.now.end }
        ensures { IfSome result (λ r. CallAt depth self.now.unit.now self.now.end at r left.old left.new) }
    {
        let marks = self.fields(at, 12, 10, 16)?;
        let count = usize::from(self.unit[at + 11]);
        let args = self.marks(marks, count)?;
        self.close(self.span(args)?)?;
        left.pay(1, 1)?;
        self.arguments(args + 4, depth, Params { marks, count }, left)?;
        Some(self.end)
    }

    // Arguments up to the end, no more than there are parameters: behind a Skip where the parameter's mark is 1, a Nop for each that is
    // absent, and none flagged from index 16 on.
    #[tactic(auto, using(crate::proofs::RunLaws::args_start, crate::proofs::RunLaws::args_more))]
    #[cycle(exprs)]
    fn arguments(&self, at: usize, depth: usize, params: Params, left: &mut Left) -> Option<()>
        requires { (at ≤ self.now.end) × (params.marks + params.count ≤ at) × (params.count < 256) }
        ensures { IfSome result (λ _. ArgsAt depth self.now.unit.now self.now.end at params.marks params.count left.old left.new) }
    {
        let mut next = at;
        let mut k = 0;
        while next < self.end {
            self.before_arg(next, k, params, left)?;
            next = self.expr(next, depth, left)?;
            k += 1;
        }
        left.pay_records(params.count - k)
    }

    // What goes with argument k, which stands at `at`: a parameter, whose Skip is paid where its mark is 1, and no flag from 16 on.
    fn before_arg(&self, at: usize, k: usize, params: Params, left: &mut Left) -> Option<()>
        requires { params.marks + params.count ≤ self.now.end }
        ensures { IfSome result (λ _. BeforeArg self.now.unit.now at k params.marks params.count left.old left.new) }
    {
        if params.count <= k {
            return None;
        }
        if 15 < k && is_prvalue_ref(self.unit, at) {
            return None;
        }
        let short = usize::from(self.unit[params.marks + k]);
        left.pay(short, short)
    }
}
