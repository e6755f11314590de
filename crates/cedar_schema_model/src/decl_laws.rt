//! Laws of the definitions on declarations, entities and requests. Each function's contract is the theorem; its body does nothing.

ghost use Rattle.cedar_schema_model.specs.DeclLaws.{DescentDecides, ActionDescentDecides, ActionTypeDescentDecides, TypeDescentDecides, DescentIsTransitive, AncestorsAreDeclared, EntitiesAreActions, ActionsConform, EntityFaultsDecide, EntityConformingDecides, ConformingIsFaultless, RequestFaultsDecide, RequestConformingDecides, RequestIsFaultless, EntitiesReadDirectly, RequestsReadDirectly, EnvironmentsAreProducts, RequestsHaveEnvironments, SlotsAreCovered, StoresHoldActions};
ghost use Rattle.cedar_schema_model.specs.BagLaws.{FirstDeclaredIsMeant, FirstActionIsMeant, SchemaFaultsDecide, WellFormedDecides, WellFormedIsFaultless, OrderHidesNoFault, SplittingIsFree, FragmentsMayMove, OrderIsTransitive, CommonTypesAreDefined, NoMoreToReplace, ContextsAreRecords, SameTypes, SameActions, ParentsAreMeant, ActionParentsAreMeant, NoActionIsItsAncestor, ActionTypesAreApart, SameTypesFound, SameActionsFound, AncestorTypesAreDeclared, AncestorActionsAreDeclared, ListedTypesAreDeclared, NoParentIsDropped, NothingOfActionsIsDropped};
ghost use Rattle.cedar_schema_model.specs.BagLaws.{ResolvedTypesRise};

/// The tests of descent are true exactly where there is a chain of declared parents, and descent is transitive.
pub fn descent_is_decided()
    ensures types { DescentDecides }
    ensures actions { ActionDescentDecides }
    ensures action_types { ActionTypeDescentDecides }
    ensures either { TypeDescentDecides }
    ensures transitive { DescentIsTransitive }
{}

/// The entities of the declared actions have exactly the declared ancestors, are one for each action, and conform. A conforming
/// store holds each declared action like that.
pub fn action_entities_are_the_actions()
    ensures ancestors { AncestorsAreDeclared }
    ensures those { EntitiesAreActions }
    ensures conform { ActionsConform }
    ensures stores { StoresHoldActions }
{}

/// The tests of entities are true exactly where the fault is there, and where none is; and what conforming says directly.
pub fn entities_are_decided()
    ensures faults { EntityFaultsDecide }
    ensures conforming { EntityConformingDecides }
    ensures faultless { ConformingIsFaultless }
    ensures directly { EntitiesReadDirectly }
{}

/// The tests of requests are true exactly where the fault is there, and where none is; and what conforming says directly.
pub fn requests_are_decided()
    ensures faults { RequestFaultsDecide }
    ensures conforming { RequestConformingDecides }
    ensures faultless { RequestIsFaultless }
    ensures directly { RequestsReadDirectly }
{}

/// The environments are each declared action with each of its principal and resource types; a conforming request has its own
/// among them; and those of a policy with slots are these, with each type that a slot may have.
pub fn environments_are_products()
    ensures products { EnvironmentsAreProducts }
    ensures requests { RequestsHaveEnvironments }
    ensures slots { SlotsAreCovered }
{}

/// A reference means the first name that is declared of those that are tried.
pub fn references_mean_the_first()
    ensures types { FirstDeclaredIsMeant }
    ensures actions { FirstActionIsMeant }
{}

/// The tests of declarations are true exactly where the fault is there, and where none is.
pub fn declarations_are_decided()
    ensures faults { SchemaFaultsDecide }
    ensures well_formed { WellFormedDecides }
    ensures faultless { WellFormedIsFaultless }
{}

/// Declarations in another order, or split into fragments in another way, have the same faults; where they have none they make
/// the same schema.
pub fn bags_have_no_order()
    ensures faults { OrderHidesNoFault }
    ensures split { SplittingIsFree }
    ensures moved { FragmentsMayMove }
    ensures transitive { OrderIsTransitive }
    ensures types { SameTypesFound }
    ensures actions { SameActionsFound }
{}

/// Where declarations are well-formed a common type is what its definition says, replacing once more changes nothing, and the
/// context of each action is a closed record. The attributes of resolved types rise by name.
pub fn common_types_are_replaced()
    ensures defined { CommonTypesAreDefined }
    ensures once_more { NoMoreToReplace }
    ensures contexts { ContextsAreRecords }
    ensures rising { ResolvedTypesRise }
{}

/// The schema has the declared types and actions, with the parents that are meant. Where declarations are well-formed no action
/// is its own ancestor, and no action's type is an entity type.
pub fn schemas_are_what_is_declared()
    ensures types { SameTypes }
    ensures actions { SameActions }
    ensures parents { ParentsAreMeant }
    ensures action_parents { ActionParentsAreMeant }
    ensures no_cycle { NoActionIsItsAncestor }
    ensures apart { ActionTypesAreApart }
{}

/// All types and actions that the schema of declarations names are declared in it, and where the declarations are well-formed it
/// has all that is written.
pub fn schemas_name_what_is_declared()
    ensures ancestors { AncestorTypesAreDeclared }
    ensures action_ancestors { AncestorActionsAreDeclared }
    ensures listed { ListedTypesAreDeclared }
    ensures parents { NoParentIsDropped }
    ensures of_actions { NothingOfActionsIsDropped }
{}
