// What stands behind the first line: the principals in one of their two forms, the default delegator, the variables and the assertions,
// and zeros behind them.
ghost use Rattle.principal_lines.specs.Principals.{form_meant};
ghost use Rattle.validate.specs.Body.{BodyMeant, Tables};

use crate::Parts;
use assertion_lines::Roll;
use principal_lines::Form;

// Reads it from the place where the first line ends; `open` is what that line says.
pub fn body_at(
    state: &[u8],
    from: usize,
    open: bool,
    form: Form,
    principals: &mut [u32],
    vars: &mut [u32],
    assertions: &mut [u64],
) -> Option<Parts>
    requires { Tables (form_meant form) state.now from principals.old vars.old assertions.old }
    ensures { BodyMeant (form_meant form) state.now from «open» principals.new vars.new assertions.new result }
{
    let roster = principal_lines::principals(state, from, form, principals)?;
    let (delegator, vars_from) = references::delegator_at(
        state,
        roster.end,
        from,
        principals,
        roster.count,
    )?;
    let values = crate::shared::variables(state, vars_from, roster.weighed, vars)?;
    let roll = Roll {
        principals_from: from,
        principals_to: roster.end,
        principals: roster.count,
        vars_from,
        vars_to: values.end,
        vars: values.count,
    };
    let listed = assertion_lines::assertions(
        state,
        values.end,
        values.weighed,
        roll,
        principals,
        vars,
        assertions,
    )?;
    if !frame::zeros_from(state, listed.end) {
        return None;
    }
    Some(Parts {
        open,
        principals_from: from,
        principals_to: roster.end,
        principals: roster.count,
        delegator,
        vars_from,
        vars_to: values.end,
        vars: values.count,
        asserted: listed.count,
        weight: listed.weighed,
        used: listed.end,
    })
}
