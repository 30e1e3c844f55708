// Executed checks of the classes of tables, and of networks that are raised, cut and carried.
#![tactic(auto)]

#[cfg(test)]
mod tests {
    use carrying::{carry_network, cut_network, raise_network};
    use classes::{Way, carry_table, lift_table, representative, way_to_representative};
    use mig::{Gate, Network};
    use outputs::column;
    use std::alloc::Global;
    use std::collections::BTreeSet;
    use std::test::Fail;

    // How many representatives the first `tables` tables have.
    fn count(heap: Global, inputs: u8, tables: u32) -> Result<usize, Fail> {
        let seen: BTreeSet<u16> = (0..tables)
            .map(|table| -> Result<u16, Fail> { Ok(representative(inputs, table)?) })
            .try_collect(heap)?;
        Ok(seen.len())
    }

    #[test]
    fn classes_are_counted(rt: HostRuntime) -> Result<(), Fail> {
        let heap = rt.alloc();
        assert_eq!(rt; count(heap, 0, 2)?, 1);
        assert_eq!(rt; count(heap, 1, 4)?, 2);
        assert_eq!(rt; count(heap, 2, 16)?, 4);
        assert_eq!(rt; count(heap, 3, 256)?, 14);
        assert_eq!(rt; count(heap, 4, 65536)?, 222);
        Ok(())
    }

    #[test]
    fn ways_lead_to_the_representative(rt: HostRuntime) -> Result<(), Fail> {
        for table in 0..256 {
            let way = way_to_representative(3, table)?;
            assert_eq!(rt;
                carry_table(way, lift_table(3, table)?),
                representative(3, table)?
            );
        }
        Ok(())
    }

    // A row of numbers without a visible pattern.
    #[derive(Drop)]
    struct Numbers {
        state: u32,
    }

    impl Numbers {
        // The next number, below `bound`.
        fn below(&mut self, bound: u8) -> u8 {
            self.state = self.state.wrapping_mul(1664525).wrapping_add(1013904223);
            if bound == 0 {
                return 0;
            }
            ((self.state >> 16) % u32::from(bound)) as u8
        }

        // A network over `inputs` inputs, with one to seven gates.
        fn network(&mut self, inputs: u8) -> Network {
            let count = 1 + self.below(7) % 7;
            let mut gates = [Gate::default(); 7];
            let mut codes = inputs.saturating_add(1).saturating_mul(2);
            for gate in gates.iter_mut().take(usize::from(count)) {
                *gate = Gate {
                    first: self.below(codes),
                    second: self.below(codes),
                    third: self.below(codes),
                };
                codes = codes.saturating_add(2);
            }
            Network {
                count,
                gates,
                output: self.below(codes),
            }
        }

        // A way.
        fn way(&mut self) -> Way {
            Way {
                order: self.below(24) % 24,
                mask: self.below(16) % 16,
                flipped: self.below(2) == 1,
            }
        }
    }

    #[test]
    fn networks_are_carried_there_and_back(rt: HostRuntime) -> Result<(), Fail> {
        let mut numbers = Numbers { state: 1 };
        for _ in 0..2000 {
            let network = numbers.network(4);
            let way = numbers.way();
            let table = column(4, &network)?.rows;
            let carried = carry_network(way, &network)?;
            assert_eq!(rt; column(4, &carried)?.rows, carry_table(way, table));
            let back = carry_network(way.inverse(), &carried)?;
            assert_eq!(rt; column(4, &back)?.rows, table);
            assert_eq!(rt; back, network);
        }
        Ok(())
    }

    #[test]
    fn networks_are_raised_and_cut(rt: HostRuntime) -> Result<(), Fail> {
        let mut numbers = Numbers { state: 2 };
        for inputs in 0..5u8 {
            for _ in 0..400 {
                let network = numbers.network(inputs);
                let table = column(inputs, &network)?.rows;
                let raised = raise_network(inputs, &network)?;
                assert_eq!(rt; column(4, &raised)?.rows, table);
                assert_eq!(rt; cut_network(inputs, &raised)?, network);
            }
        }
        Ok(())
    }
}
