// Small formulas made in a table, with the number of nodes of their sets: the tests of crates table, diagram and survey.
// The variable v has the codes 2 v - 2 for its positive literal and 2 v - 1 for its negative one.
#![tactic(auto)]

ghost use Rattle.std.specs.Prelude.{◌<◌, IfOk};
ghost use Rattle.std.specs.List.{AllByRecursion};
ghost use Rattle.table.specs.Tables.{Number};

#[cfg(test)]
mod tests {
    use diagram::{set_literal, single, union};
    use std::test::Fail;
    use survey::{count_literals, find_units, holds_empty};
    use table::{Full, Table};

    // The number of nodes that are reached from a number. Both sides of a node have lower numbers.
    fn count_nodes(table: &Table, number: u16) -> usize
        requires { Number table.now number }
    {
        let mut reached = [false; 4098];
        reached[usize::from(number)] = true;
        for n in (2..number + 1).rev() {
            if reached[usize::from(n)] {
                let node = table.node(n);
                reached[usize::from(node.with)] = true;
                reached[usize::from(node.without)] = true;
            }
        }
        reached[2..].iter().filter(|is| **is).count()
    }

    fn full(_full: Full) -> Fail {
        Fail::new("the table is full")
    }

    // The set of two clauses.
    fn two(table: &mut Table, first: &[u16], second: &[u16]) -> Result<u16, Full>
        requires first_coded { AllByRecursion (λ x. x < 512) first.now }
        requires second_coded { AllByRecursion (λ x. x < 512) second.now }
        ensures { IfOk result (λ n. Number table.new n) }
    {
        let left = single(table, first)?;
        let right = single(table, second)?;
        union(table, left, right)
    }

    // (1 2)(-1 -2)
    fn opposite_pairs(table: &mut Table) -> Result<u16, Full>
        ensures { IfOk result (λ n. Number table.new n) }
    {
        two(table, &[2, 0], &[3, 1])
    }

    // (1 2)(1 -2)
    fn shared_literal(table: &mut Table) -> Result<u16, Full>
        ensures { IfOk result (λ n. Number table.new n) }
    {
        two(table, &[0, 2], &[0, 3])
    }

    // (1 2 3)(-1 2 3)(-2 -3)
    fn three_clauses(table: &mut Table) -> Result<u16, Full>
        ensures { IfOk result (λ n. Number table.new n) }
    {
        let both = two(table, &[0, 2, 4], &[1, 2, 4])?;
        let third = single(table, &[3, 5])?;
        union(table, both, third)
    }

    #[test]
    fn empty_clause_has_no_node(rt: HostRuntime) -> Result<(), Fail> {
        let mut table = Table::new();
        let set = single(&mut table, &[]).map_err(full)?;
        assert!(rt; set == 1 && table.size() == 0 && holds_empty(table.set(set)));
        Ok(())
    }

    #[test]
    fn unit_clause_has_one_node(rt: HostRuntime) -> Result<(), Fail> {
        let mut table = Table::new();
        let set = single(&mut table, &[0]).map_err(full)?;
        assert!(rt; count_nodes(&table, set) == 1 && find_units(table.set(set)).get(0));
        Ok(())
    }

    #[test]
    fn counts_one_clause(rt: HostRuntime) -> Result<(), Fail> {
        let mut table = Table::new();
        let set = single(&mut table, &[5, 2]).map_err(full)?;
        let counts = count_literals(table.set(set));
        assert!(rt; counts.get(2) == 1 && counts.get(5) == 1 && counts.get(3) == 0);
        Ok(())
    }

    #[test]
    fn opposite_pairs_have_four_nodes(rt: HostRuntime) -> Result<(), Fail> {
        let mut table = Table::new();
        let set = opposite_pairs(&mut table).map_err(full)?;
        assert!(rt; count_nodes(&table, set) == 4 && table.size() == 5);
        Ok(())
    }

    #[test]
    fn shared_literal_has_three_nodes(rt: HostRuntime) -> Result<(), Fail> {
        let mut table = Table::new();
        let set = shared_literal(&mut table).map_err(full)?;
        assert!(rt; count_nodes(&table, set) == 3);
        Ok(())
    }

    #[test]
    fn three_clauses_have_six_nodes(rt: HostRuntime) -> Result<(), Fail> {
        let mut table = Table::new();
        let set = three_clauses(&mut table).map_err(full)?;
        assert!(rt; count_nodes(&table, set) == 6);
        Ok(())
    }

    // Setting 1 true leaves (-2), setting it false leaves (2).
    #[test]
    fn setting_leaves_a_unit(rt: HostRuntime) -> Result<(), Fail> {
        let mut table = Table::new();
        let set = opposite_pairs(&mut table).map_err(full)?;
        let rest = set_literal(&mut table, set, 0).map_err(full)?;
        let units = find_units(table.set(rest));
        assert!(rt; units.get(3) && !units.get(2));
        Ok(())
    }

    #[test]
    fn fills(rt: HostRuntime) {
        let mut table = Table::new();
        let mut refused = false;
        for low in 0..64u16 {
            for high in 64..512u16 {
                refused |= single(&mut table, &[low, high]).is_err();
            }
        }
        assert!(rt; refused && table.size() == 4096);
    }
}
