//! What is made of all arguments of a call.

ghost use Rattle.std.specs.Prelude.{◌≡◌, [], ◌++◌, IfOk};
ghost use Rattle.vast_calls.specs.Internal.Written.{AreLeft};

use crate::arguments::{Arguments, FromArguments};
use crate::problem::Misfit;

impl Arguments<'_> {
    /// What was made of no arguments.
    #[tactic(auto, using(crate::proofs::Words::none_left))]
    pub(crate) fn none<R: Drop>(&self, made: R) -> Result<R, Misfit>
        ensures { IfOk result (λ r. (r ≡ made) × AreLeft self.now []) }
    {
        self.end()?;
        Ok(made)
    }

    /// All that is left, as one value: several arguments are pairs of pairs, since a function that holds several values
    /// across several `?` is dear to prove.
    #[tactic(auto, using(crate::proofs::Words::ends))]
    fn all<A: FromArguments>(&mut self) -> Result<A, Misfit>
        ensures { IfOk result (λ all. AreLeft self.old (A.pieces all)) }
    {
        let all = A::take(self)?;
        self.end()?;
        Ok(all)
    }

    /// What is made of one argument.
    pub(crate) fn one<A: FromArguments, R, M>(&mut self, make: M) -> Result<R, Misfit>
    where
        M: FnOnce(A) -> R + Drop,
        requires { M.IsAlwaysCallable make }
        ensures { IfOk result (λ made.
            (first : A)
            × M.post make first made
            × AreLeft self.old (A.pieces first)) }
    {
        let first: A = self.all()?;
        Ok(make(first))
    }

    /// What is made of two arguments.
    pub(crate) fn two<A: FromArguments, B: FromArguments, R, M>(
        &mut self,
        make: M,
    ) -> Result<R, Misfit>
    where
        M: FnOnce(A, B) -> R + Drop,
        requires { M.IsAlwaysCallable make }
        ensures { IfOk result (λ made.
            (first : A) × (second : B)
            × M.post make first second made
            × AreLeft self.old (A.pieces first ++ B.pieces second)) }
    {
        let (first, second): (A, B) = self.all()?;
        Ok(make(first, second))
    }

    /// What is made of three arguments.
    pub(crate) fn three<A: FromArguments, B: FromArguments, C: FromArguments, R, M>(
        &mut self,
        make: M,
    ) -> Result<R, Misfit>
    where
        M: FnOnce(A, B, C) -> R + Drop,
        requires { M.IsAlwaysCallable make }
        ensures { IfOk result (λ made.
            (first : A) × (second : B) × (third : C)
            × M.post make first second third made
            × AreLeft self.old (A.pieces first ++ (B.pieces second ++ C.pieces third))) }
    {
        let (first, (second, third)): (A, (B, C)) = self.all()?;
        Ok(make(first, second, third))
    }

    /// What is made of four arguments.
    pub(crate) fn four<
        A: FromArguments,
        B: FromArguments,
        C: FromArguments,
        D: FromArguments,
        R,
        M,
    >(&mut self, make: M) -> Result<R, Misfit>
    where
        M: FnOnce(A, B, C, D) -> R + Drop,
        requires { M.IsAlwaysCallable make }
        ensures { IfOk result (λ made.
            (first : A) × (second : B) × (third : C) × (fourth : D)
            × M.post make first second third fourth made
            × AreLeft self.old (A.pieces first ++ (B.pieces second
            ++ (C.pieces third ++ D.pieces fourth)))) }
    {
        let (first, (second, (third, fourth))): (A, (B, (C, D))) = self.all()?;
        Ok(make(first, second, third, fourth))
    }

    /// What is made of five arguments.
    pub(crate) fn five<
        A: FromArguments,
        B: FromArguments,
        C: FromArguments,
        D: FromArguments,
        E: FromArguments,
        R,
        M,
    >(&mut self, make: M) -> Result<R, Misfit>
    where
        M: FnOnce(A, B, C, D, E) -> R + Drop,
        requires { M.IsAlwaysCallable make }
        ensures { IfOk result (λ made.
            (first : A) × (second : B) × (third : C) × (fourth : D) × (fifth : E)
            × M.post make first second third fourth fifth made
            × AreLeft self.old (A.pieces first ++ (B.pieces second
            ++ (C.pieces third ++ (D.pieces fourth ++ E.pieces fifth))))) }
    {
        let (first, (second, (third, (fourth, fifth)))): (A, (B, (C, (D, E)))) = self.all()?;
        Ok(make(first, second, third, fourth, fifth))
    }

    /// What is made of six arguments.
    pub(crate) fn six<
        A: FromArguments,
        B: FromArguments,
        C: FromArguments,
        D: FromArguments,
        E: FromArguments,
        F: FromArguments,
        R,
        M,
    >(&mut self, make: M) -> Result<R, Misfit>
    where
        M: FnOnce(A, B, C, D, E, F) -> R + Drop,
        requires { M.IsAlwaysCallable make }
        ensures { IfOk result (λ made.
            (first : A) × (second : B) × (third : C) × (fourth : D) × (fifth : E) × (sixth : F)
            × M.post make first second third fourth fifth sixth made
            × AreLeft self.old (A.pieces first ++ (B.pieces second
            ++ (C.pieces third ++ (D.pieces fourth
            ++ (E.pieces fifth ++ F.pieces sixth)))))) }
    {
        let (first, (second, (third, (fourth, (fifth, sixth))))): (A, (B, (C, (D, (E, F))))) =
            self.all()?;
        Ok(make(first, second, third, fourth, fifth, sixth))
    }
}
